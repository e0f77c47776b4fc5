// One triplet of a set, as the work on it takes it.
use phonon::{Legs, Tables};

// The tables, and the grid points and the q of the legs. Nothing is asked of them here: each function asks by clauses for what it reads,
// so that the force constants are had with no phonons at hand.
#[derive(Clone, Copy)]
pub struct Points<'a> {
    pub tables: &'a Tables<'a>,
    pub g: Legs<usize>,
    pub q: Legs<[f64; 3]>,
}
