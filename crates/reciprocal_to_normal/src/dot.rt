// cmplx_dot_partial4: the dot product of two arrays.
ghost use Rattle.std.specs.Prelude.{◌≡◌, ◌+◌, ◌*◌, ◌<◌, ◌≤◌, length};
ghost use Rattle.phonon.specs.Common.{cadd, cmul};
ghost use Rattle.phonon.specs.ReciprocalToNormal.{dot};
ghost use Rattle.planes.specs.Split.{split};
ghost use Rattle.reciprocal_to_normal.specs.Places.{number_in};

use crate::places::{Planes, Vector};
use common::{cmplx_add, cmplx_mul};
use phonon::Complex;
use planes::get_split;

// s and the product of numbers k of both arrays.
fn add_term(s: Complex, w: &[f64], x: Planes, y: Vector, k: usize) -> Complex
    requires { (x.at + x.apart + k < length w.now) × (y.at + y.apart + k * y.step < length w.now) }
    ensures { result ≡ cadd s (cmul (split w.now x.at x.apart k) (number_in w.now y k)) }
{
    cmplx_add(s, cmplx_mul(get_split(w, x.at, x.apart, k), y.get(w, k)))
}

// Four partial sums, joined (0 + 1) + (2 + 3), then the remainder.
#[tactic(auto, using(planes::proofs::Products::row_le))]
pub fn cmplx_dot_partial4(w: &[f64], x: Planes, y: Vector, n: usize) -> Complex
    requires { (n ≤ 3000) × (x.at + x.apart + n ≤ length w.now) × (y.at + y.apart + n * y.step < length w.now + y.step) }
    ensures { result ≡ dot n (split w.now x.at x.apart) (number_in w.now y) }
{
    // Four variables, as the source has them: an array of them would need a loop in this loop.
    let zero = Complex { re: 0.0, im: 0.0 };
    let mut s0 = zero;
    let mut s1 = zero;
    let mut s2 = zero;
    let mut s3 = zero;
    let q = n / 4;
    for i in 0..q {
        let k = 4 * i;
        s0 = add_term(s0, w, x, y, k);
        s1 = add_term(s1, w, x, y, k + 1);
        s2 = add_term(s2, w, x, y, k + 2);
        s3 = add_term(s3, w, x, y, k + 3);
    }
    let mut s = cmplx_add(cmplx_add(s0, s1), cmplx_add(s2, s3));
    let rest = n % 4;
    for r in 0..rest {
        s = add_term(s, w, x, y, 4 * q + r);
    }
    s
}
