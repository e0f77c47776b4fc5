// What a case changes in cell U, the result that document 01 names, and the buffers that the doors are lent.
ghost use Rattle.std.specs.Prelude.{◌≡◌, replicate};
ghost use Rattle.std.specs.Float.Ieee.{neg};
ghost use Rattle.phonon.specs.Number.{f1};

use phonon::{Anchoring, Refusal, Symmetry};

// That F is at most 3 is no ghost field: with one the arms of the table join before their promise, which is then no longer
// told case by case.
#[derive(Clone, Copy)]
pub struct Case {
    pub cutoff: f64,
    pub anchoring: Anchoring,
    pub symmetry: Symmetry,
    // the one entry of all-shortest and of nonzero, bytes as document 01 has them, and the force constant at (0, 1, 2)
    pub shortest: u8,
    pub nonzero: u8,
    pub constant: f64,
    // the multiplicity's count
    pub count: i64,
    // F, and the bands, of which the first F are handed in
    pub first: usize,
    pub bands: [i64; 3],
    // of two triplets, 9 * F slots each
    pub flags: [u8; 54],
    pub temperature: f64,
    // what the doors of the strengths answer, and what totals alone does
    pub strengths_answer: Result<(), Refusal>,
    pub totals_answer: Result<(), Refusal>,
    pub strengths: [f64; 27],
    pub totals: [f64; 3],
}

// The entries of the tables that are the case's own.
#[derive(Clone, Copy)]
pub struct Cell {
    pub multiplicity: [i64; 2],
    pub shortest: [u8; 1],
    pub nonzero: [u8; 1],
    pub constants: [f64; 27],
}

// Of two triplets 9 * F slots each, F totals, and W and two numbers more.
#[derive(Clone, Copy)]
pub struct Buffers {
    pub strengths: [f64; 54],
    pub totals: [f64; 3],
    pub work: [f64; 205],
}

impl Buffers {
    // Every number -1.0.
    pub fn new() -> Self
        ensures { (result.strengths ≡ replicate 54 (neg f1)) × (result.totals ≡ replicate 3 (neg f1)) × (result.work ≡ replicate 205 (neg f1)) }
    {
        Buffers {
            strengths: [-1.0; 54],
            totals: [-1.0; 3],
            work: [-1.0; 205],
        }
    }
}
