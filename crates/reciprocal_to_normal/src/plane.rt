// The slots of one first band: what they are worked from, and which of them are worked together.
ghost use Rattle.std.specs.Prelude.{◌≡◌, ◌+◌, ◌*◌, ◌<◌, ◌≤◌, length};
ghost use Rattle.phonon.specs.Sets.{slot};
ghost use Rattle.phonon.specs.ReciprocalToNormal.{dot};
ghost use Rattle.planes.specs.Split.{split, WroteSplit};
ghost use Rattle.reciprocal_to_normal.specs.Places.{number_in, column_dot, PlaneFits};

use crate::dot::cmplx_dot_partial4;
use crate::places::{Planes, Vector};
use crate::row::contract_row;
use crate::strength::strength_of;
use phonon::Complex;

// The places of the contracted matrix, of the scaled eigenvectors of legs 1 and 2 and of a row; the first band's frequency, and those of
// the later legs.
#[derive(Clone, Copy)]
pub struct Plane<'a> {
    pub atoms: usize,
    pub matrix: usize,
    pub leg1: usize,
    pub leg2: usize,
    pub row: usize,
    pub x: f64,
    pub freqs1: &'a [f64],
    pub freqs2: &'a [f64],
    pub cutoff: f64,
    pub ghost fits: { PlaneFits atoms matrix leg1 leg2 row (length freqs1.now) (length freqs2.now) },
}

impl Plane<'_> {
    ghost use Rattle.reciprocal_to_normal.specs.Slots.{bands_of, matrix_of, legs1_of, leg1_of, leg2_of, row_of, strength_in};

    // At row, the contraction of the matrix with band k of leg 2.
    pub fn contract_leg2(&self, w: &mut [f64], k: usize)
        requires { (k < bands_of self.now) × (self.now.row + 2 * bands_of self.now ≤ length w.old) }
        ensures { WroteSplit w.old w.new self.now.row (bands_of self.now) (bands_of self.now)
            (column_dot w.old (matrix_of self.now) (leg2_of self.now k) (bands_of self.now)) }
    {
        let nb = 3 * self.atoms;
        let d = nb * nb;
        let m = Planes {
            at: self.matrix,
            apart: d,
        };
        let v = Vector {
            at: self.leg2 + k,
            apart: d,
            step: nb,
        };
        contract_row(w, self.row, m, v, self.atoms);
    }

    // Behind the row, its dot products with all bands of leg 1.
    pub fn contract_leg1(&self, w: &mut [f64])
        requires { self.now.row + 4 * bands_of self.now ≤ length w.old }
        ensures { WroteSplit w.old w.new (self.now.row + 2 * bands_of self.now) (bands_of self.now) (bands_of self.now)
            (column_dot w.old (legs1_of self.now) (row_of self.now) (bands_of self.now)) }
    {
        let nb = 3 * self.atoms;
        let m = Planes {
            at: self.leg1,
            apart: nb * nb,
        };
        let v = Vector {
            at: self.row,
            apart: nb,
            step: 1,
        };
        contract_row(w, self.row + 2 * nb, m, v, self.atoms);
    }

    // The dot product of the row and band j of leg 1.
    pub fn dot(&self, w: &[f64], j: usize) -> Complex
        requires { (j < bands_of self.now) × (self.now.row + 2 * bands_of self.now ≤ length w.now) }
        ensures { result ≡ dot (bands_of self.now) (split w.now self.now.row (bands_of self.now)) (number_in w.now (leg1_of self.now j)) }
    {
        let nb = 3 * self.atoms;
        let x = Planes {
            at: self.row,
            apart: nb,
        };
        let y = Vector {
            at: self.leg1 + j,
            apart: nb * nb,
            step: nb,
        };
        cmplx_dot_partial4(w, x, y, nb)
    }

    // The strength of bands j and k, from their amplitude.
    pub fn strength(&self, a: Complex, j: usize, k: usize) -> f64
        requires { (j < length self.now.freqs1.now) × (k < length self.now.freqs2.now) }
        ensures { result ≡ strength_in self.now a j k }
    {
        strength_of(self.cutoff, a, self.x, self.freqs1[j], self.freqs2[k])
    }
}

// The slots (b, j, k) of all j.
#[derive(Clone, Copy)]
pub struct Column {
    pub bands: usize,
    pub b: usize,
    pub k: usize,
}

impl Column {
    // The number of slot (b, j, k).
    pub fn slot(self, j: usize) -> usize
        requires { (j < self.bands) × (self.k < self.bands) × ((self.b + 1) * self.bands * self.bands ≤ usize.MAX) }
        ensures { result ≡ slot self.bands self.b j self.k }
    {
        (self.b * self.bands + j) * self.bands + self.k
    }
}
