// The force constants, with the copies of each atom in the supercell.
ghost use Rattle.std.specs.Prelude.{◌≡◌, ⊤, ◌+◌, ◌<◌, ◌≤◌, length, MatchOption};
ghost use Rattle.phonon.specs.Number.{index, int};
ghost use Rattle.phonon.specs.Handed.{forces_of};
ghost use Rattle.real_to_reciprocal.specs.Shape.{Shaped};
ghost use Rattle.real_to_reciprocal.specs.Copies.{FirstCopies, LaterCopies, NextCopy};

use phonon::Forces;
use planes::{index_at, index_of};
use std::alloc::AllocError;
use std::convert::AsSlice;

// The first copy of supercell atom y from `from` on.
fn next_copy(s2p: &[i64], y: usize, from: usize) -> Option<usize>
    requires { from ≤ length s2p.now }
    ensures { NextCopy s2p.now (length s2p.now) y from result }
{
    let n = s2p[from..].iter().position(|x| index_of(*x) == y)?;
    Some(from + n)
}

// ---- tables of copies, in which the number of supercell atoms stands for none: an Option there would take twice the room. They are
// written where they lie: handed back by value they are copied twice, and all that follows took up to 1.1 times as long. By places, as the copies are numbered.

// The first copy of each atom.
pub fn first_copies(first: &mut [u16], p2s: &[i64], s2p: &[i64])
    requires { (length p2s.now ≤ length first.old) × (length s2p.now < 65536) }
    ensures { FirstCopies (length p2s.now) (length s2p.now) p2s.now s2p.now first.new }
{
    for a in 0..p2s.len() {
        let copy = next_copy(s2p, index_at(p2s, a), 0);
        first[a] = copy.unwrap_or(s2p.len()) as u16;
    }
}

// After each supercell atom, the next copy of the same atom.
pub fn later_copies(later: &mut [u16], s2p: &[i64])
    requires { (length s2p.now ≤ length later.old) × (length s2p.now < 65536) }
    ensures { LaterCopies (length s2p.now) s2p.now later.new }
{
    for k in 0..s2p.len() {
        let copy = next_copy(s2p, index_at(s2p, k), k + 1);
        later[k] = copy.unwrap_or(s2p.len()) as u16;
    }
}

// An entry of a table of copies among ns supercell atoms.
fn copy_of(entry: u16, ns: usize) -> Option<usize>
    ensures { MatchOption result (ns ≤ entry) (λ k. (k ≡ entry) × (k < ns)) }
{
    let k = usize::from(entry);
    if k < ns { Some(k) } else { None }
}

// The force constants of np atoms and ns supercell atoms, with the first copy of each atom, and after each supercell atom the
// next copy of the same atom. The tables are lent, each of its own length, which may be known when the program is built or only
// when it runs: `real_to_reciprocal` lends arrays, as with slices the door took 1.26 times as long at one and two atoms.
pub struct Supercell<'a, T: AsSlice<u16>> {
    pub forces: Forces<'a>,
    pub np: usize,
    pub ns: usize,
    pub first: &'a T,
    pub later: &'a T,
    ghost shaped: { Shaped np ns (forces_of forces) },
    ghost first_are: { FirstCopies np ns forces.p2s.now forces.s2p.now (T.items first.now) },
    ghost later_are: { LaterCopies ns forces.s2p.now (T.items later.now) },
}

// By hand: Clone is not derived of a type with a type parameter and ghost fields, and a derived Copy would ask T to be Copy.
impl<T: AsSlice<u16>> Copy for Supercell<'_, T> {}

impl<T: AsSlice<u16>> Clone for Supercell<'_, T> {
    ghost is_clone = { λ x y. y ≡ x };

    ghost is_infallible = { λ _. ⊤ };

    fn clone(&self) -> Result<Self, AllocError> {
        Ok(*self)
    }
}

impl<T: AsSlice<u16>> Supercell<'_, T> {
    // The first copy of atom a.
    pub fn first_copy(&self, a: usize) -> Option<usize>
        requires { a < self.now.np }
        ensures { NextCopy self.now.forces.s2p.now self.now.ns (index (int self.now.forces.p2s.now a)) 0 result }
    {
        copy_of(self.first.as_slice()[a], self.ns)
    }

    // The next copy, after supercell atom k, of the same atom.
    pub fn copy_after(&self, k: usize) -> Option<usize>
        requires { k < self.now.ns }
        ensures { NextCopy self.now.forces.s2p.now self.now.ns (index (int self.now.forces.s2p.now k)) (k + 1) result }
    {
        copy_of(self.later.as_slice()[k], self.ns)
    }
}
