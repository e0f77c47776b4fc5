// Numbers by their bits. Every NaN counts as one, whose bits are 7ff8000000000000. The library's functions, with contracts in the definition's
// word `bits`.
ghost use Rattle.std.specs.Prelude.{◌≡◌, to_bits};
ghost use Rattle.std.specs.Float.{binary64};
ghost use Rattle.phonon.specs.Number.{bits};

use std::num::{f64_from_bits_with_nan, f64_to_bits_with_nan};

// The number that the bits denote.
pub fn f64_of_bits(w: u64) -> f64
    ensures { result ≡ bits w }
{
    f64_from_bits_with_nan(w)
}

// The bits of a number.
#[tactic(auto, using(crate::proofs::Patterns::bits_told))]
pub fn bits_of(x: f64) -> u64
    ensures { (result ≡ to_bits binary64 x) × (x ≡ bits result) }
{
    f64_to_bits_with_nan(x)
}
