// contract_fc3_e0: the force constants contracted with one band of leg 0, whole planes at a time. Planes by off and d, which is their
// distance and the count of their numbers too, so that a struct of the two would be no shorter.
ghost use Rattle.std.specs.Prelude.{◌+◌, ◌*◌, ◌<◌, ◌≤◌, length};
ghost use Rattle.phonon.specs.Common.{czero, cadd, cmul};
ghost use Rattle.phonon.specs.ReciprocalToNormal.{add_unless_zero};
ghost use Rattle.planes.specs.Split.{split, WroteSplit, strided};
ghost use Rattle.reciprocal_to_normal.specs.Arrays.{contracted};

use common::{cmplx_add, cmplx_mul, is_zero};
use phonon::Complex;
use planes::{get_split, put_split};

// Zero in the d numbers from off on. One by one: `fill` calls the C library, which takes longer than so few stores.
fn clear_planes(w: &mut [f64], off: usize, d: usize)
    requires { off + 2 * d ≤ length w.old }
    ensures { WroteSplit w.old w.new off d d (λ x. czero) }
{
    for x in 0..d {
        put_split(w, off, d, x, Complex { re: 0.0, im: 0.0 });
    }
}

// Adds e times the planes at fo to the planes at off.
fn add_planes(w: &mut [f64], off: usize, fo: usize, d: usize, e: Complex)
    requires { (off + 2 * d ≤ length w.old) × (fo + 2 * d ≤ off) }
    ensures { WroteSplit w.old w.new off d d
        (λ x. cadd (split w.old off d x) (cmul (split w.old fo d x) e)) }
{
    for x in 0..d {
        let p = cmplx_mul(get_split(w, fo, d, x), e);
        let s = cmplx_add(get_split(w, off, d, x), p);
        put_split(w, off, d, x, s);
    }
}

// Adds number k of the array at eo times the planes at fo to the planes at off. A zero number is passed.
fn turn_planes(w: &mut [f64], off: usize, fo: usize, d: usize, eo: usize, k: usize)
    requires { (off + 2 * d ≤ length w.old) × (fo + 2 * d ≤ off) × (eo + d + k < off) }
    ensures { WroteSplit w.old w.new off d d
        (λ x. add_unless_zero (split w.old eo d k) (split w.old fo d x) (split w.old off d x)) }
{
    let e = get_split(w, eo, d, k);
    if is_zero(e) {
        return;
    }
    add_planes(w, off, fo, d, e);
}

// At off, the planes of the force constants at fo contracted with the band of leg 0 whose first component is at eo.
pub fn contract_fc3_e0(w: &mut [f64], off: usize, fo: usize, eo: usize, nb: usize)
    requires { (nb ≤ 3000) × (off + 2 * (nb * nb) ≤ length w.old) × (fo + 2 * (nb * (nb * nb)) ≤ off) × (eo + 2 * (nb * nb) < off + nb) }
    ensures { WroteSplit w.old w.new off (nb * nb) (nb * nb)
        (λ x. contracted nb (λ al. split w.old (fo + 2 * (al * (nb * nb))) (nb * nb) x) (strided w.old eo (nb * nb) nb)) }
{
    let d = nb * nb;
    clear_planes(w, off, d);
    for al in 0..nb {
        turn_planes(w, off, fo + 2 * (al * d), d, eo, al * nb);
    }
}
