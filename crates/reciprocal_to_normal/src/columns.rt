// The dot products of neighbouring columns of a matrix with a vector.
ghost use Rattle.std.specs.Prelude.{◌≡◌, ◌+◌, ◌*◌, ◌<◌, ◌≤◌, length};
ghost use Rattle.phonon.specs.Common.{czero, cadd, cmul};
ghost use Rattle.phonon.specs.ReciprocalToNormal.{lane};
ghost use Rattle.planes.specs.Split.{split, WroteSplit};
ghost use Rattle.reciprocal_to_normal.specs.Places.{Below, number_in, column_of, column_dot};
ghost use Rattle.reciprocal_to_normal.specs.Columns.{sum_at, Summed};

use crate::places::{Planes, Vector};
use common::cmplx_mul;
use phonon::Complex;
use planes::get_split;

// The sums of N columns: their real parts, and their imaginary parts. Two arrays, as planes are: an array of complex numbers would
// be stored number by number.
#[derive(Clone, Copy)]
pub struct Sums<const N: usize> {
    pub re: [f64; N],
    pub im: [f64; N],
}

impl<const N: usize> Sums<N> {
    // Sums of no terms.
    #[inline(always)]
    fn none() -> Sums<N>
        ensures { Summed result (λ c. czero) }
    {
        Sums {
            re: [0.0; N],
            im: [0.0; N],
        }
    }

    // Adds v times the numbers from `from` on of a matrix, one to each column.
    #[inline(always)]
    fn add_row(&mut self, w: &[f64], from: usize, apart: usize, v: Complex)
        requires { from + apart + N ≤ length w.now }
        ensures { Summed self.new (λ c. cadd (sum_at self.old c) (cmul (split w.now from apart c) v)) }
    {
        for c in 0..N {
            let p = cmplx_mul(get_split(w, from, apart, c), v);
            self.re[c] += p.re;
            self.im[c] += p.im;
        }
    }

    // Both sums of each column, added. By columns: three pairs of arrays zipped read no plainer.
    #[inline(always)]
    fn plus(&self, other: &Sums<N>) -> Sums<N>
        ensures { Summed result (λ c. cadd (sum_at self.now c) (sum_at other.now c)) }
    {
        let mut t = Sums::none();
        for c in 0..N {
            t.re[c] = self.re[c] + other.re[c];
            t.im[c] = self.im[c] + other.im[c];
        }
        t
    }

    // The sums as numbers of the array at `to` whose imaginary parts are `apart` places further.
    #[inline(always)]
    pub fn put(&self, w: &mut [f64], to: usize, apart: usize)
        requires { (N ≤ apart) × (to + apart + N ≤ length w.old) }
        ensures { WroteSplit w.old w.new to apart N (sum_at self.now) }
    {
        w[to..to + N].copy_from_slice(&self.re);
        w[to + apart..to + apart + N].copy_from_slice(&self.im);
    }
}

// Partial sum p of the columns from j on: rows p, p + 4, p + 8, .. The place of the first is worked outside the loop, and no
// other anew.
#[inline(always)]
fn lane_columns<const N: usize>(
    w: &[f64],
    m: Planes,
    v: Vector,
    n: usize,
    j: usize,
    p: usize,
) -> Sums<N>
    requires { (j + N ≤ n) × (p < 4) × Below (length w.now) n m v }
    ensures { Summed result (λ c. lane n (column_of w.now m n (j + c)) (number_in w.now v) p) }
{
    let first = m.at + (p * n + j);
    let mut t = Sums::none();
    for i in 0..n / 4 {
        t.add_row(w, first + i * (4 * n), m.apart, v.get(w, 4 * i + p));
    }
    t
}

// The dot products of N columns from j on with the vector: four partial sums, joined (0 + 1) + (2 + 3), then the remainder.
#[inline(always)]
pub fn dot_columns<const N: usize>(w: &[f64], m: Planes, v: Vector, n: usize, j: usize) -> Sums<N>
    requires { (j + N ≤ n) × Below (length w.now) n m v }
    ensures { Summed result (λ c. column_dot w.now m v n (j + c)) }
{
    let s0 = lane_columns(w, m, v, n, j, 0);
    let s1 = lane_columns(w, m, v, n, j, 1);
    let s2 = lane_columns(w, m, v, n, j, 2);
    let s3 = lane_columns(w, m, v, n, j, 3);
    let x = s0.plus(&s1);
    let y = s2.plus(&s3);
    let mut t = x.plus(&y);
    for r in 0..n % 4 {
        let k = 4 * (n / 4) + r;
        t.add_row(w, m.at + (k * n + j), m.apart, v.get(w, k));
    }
    t
}
