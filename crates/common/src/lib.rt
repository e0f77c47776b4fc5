// common.rs: complex numbers. Beside them the root, and whole numbers as f64.
#![tactic(auto)]

pub mod bits;

ghost use Rattle.std.specs.Prelude.{◌≡◌, ℤ, pos};
ghost use Rattle.phonon.specs.Number.{float};
ghost use Rattle.phonon.specs.Common.{cadd, cmul, scale, is_zero};
ghost use Rattle.phonon.specs.Root as Root;

use phonon::Complex;

// A whole number of some type, and the float nearest to it. Where every whole number is a float, the machine converts it by itself.
pub trait Whole {
    ghost whole: { Self → ℤ };

    fn nearest(self) -> f64
        ensures { result ≡ float (whole self) };
}

impl Whole for i64 {
    ghost whole = { λ n. n };

    fn nearest(self) -> f64 {
        if (-9007199254740992 <= self) & (self <= 9007199254740992) {
            return self as f64;
        }
        std::num::nearest_i64_to_f64(self)
    }
}

// A count.
impl Whole for usize {
    ghost whole = { λ n. pos n };

    fn nearest(self) -> f64 {
        if self <= 0xffff_ffff {
            return (self as u32) as f64;
        }
        std::num::nearest_u64_to_f64(self as u64)
    }
}

// The float nearest to n.
pub fn float_of<N: Whole>(n: N) -> f64
    ensures { result ≡ float (N.whole n) }
{
    n.nearest()
}

// The sum of two complex numbers.
#[tactic(auto, unfolding(phonon::specs::Common::cadd))]
pub fn cmplx_add(a: Complex, b: Complex) -> Complex
    ensures { result ≡ cadd a b }
{
    Complex {
        re: a.re + b.re,
        im: a.im + b.im,
    }
}

// The product of two complex numbers.
#[tactic(auto, unfolding(phonon::specs::Common::cmul))]
pub fn cmplx_mul(a: Complex, b: Complex) -> Complex
    ensures { result ≡ cmul a b }
{
    Complex {
        re: a.re * b.re - a.im * b.im,
        im: a.re * b.im + a.im * b.re,
    }
}

// A complex number times a real one.
#[tactic(auto, unfolding(phonon::specs::Common::scale))]
pub fn cmplx_scale(a: Complex, s: f64) -> Complex
    ensures { result ≡ scale a s }
{
    Complex {
        re: a.re * s,
        im: a.im * s,
    }
}

// Whether both parts are zero, of either sign. Part by part: a comparison with a Complex of two zeros is longer.
#[tactic(auto, unfolding(phonon::specs::Common::is_zero))]
pub fn is_zero(a: Complex) -> bool
    ensures { result ≡ is_zero a }
{
    a.re == 0.0 && a.im == 0.0
}

// The square root of x: the f64 nearest the exact root. That of a zero is that zero, of a negative number a NaN: the NaN of the other stand-ins,
// where the machine's root gives one with a sign, or x itself.
#[tactic(auto, using(crate::proofs::MachineRoot::root_told, crate::proofs::MachineRoot::nan_told))]
pub fn root(x: f64) -> f64
    ensures { result ≡ Root.root x }
{
    let y = x.sqrt();
    if y.is_nan() { f64::NAN } else { y }
}
