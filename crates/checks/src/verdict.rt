// What the checks of a set answer: it passes, or why it is turned away.
ghost use Rattle.std.specs.Prelude.{ℕ, ◌≡◌, cond, Ok, Err};
ghost use Rattle.phonon.specs.Answers.{number_of};
ghost use Rattle.phonon.specs.Refusal.{lower};

use phonon::{Refusal, number_of};

// One test and its refusal.
pub fn require(good: bool, refusal: Refusal) -> Result<(), Refusal>
    ensures { result ≡ cond good (Ok tt) (Err refusal) }
{
    if good { Ok(()) } else { Err(refusal) }
}

// What stands for the number of a refusal, of which 0 is none: an answer, or the number itself.
pub trait Numbered: Copy {
    ghost number: { Self → ℕ };

    fn to_number(self) -> u8
        ensures { result ≡ number self };
}

impl Numbered for Result<(), Refusal> {
    ghost number = { number_of };

    fn to_number(self) -> u8 {
        number_of(self)
    }
}

impl Numbered for u8 {
    ghost number = { λ n. n };

    fn to_number(self) -> u8 {
        self
    }
}

// The one of the lower number.
#[tactic(auto, using(phonon::proofs::Lowest::lower_first, phonon::proofs::Lowest::lower_zero, phonon::proofs::Lowest::lower_least, phonon::proofs::Lowest::lower_second))]
pub fn lower_of<N: Numbered>(a: N, b: N) -> N
    ensures { N.number result ≡ lower (N.number a) (N.number b) }
{
    let x = a.to_number();
    let y = b.to_number();
    if x == 0 {
        return b;
    }
    if y == 0 {
        return a;
    }
    if x <= y { a } else { b }
}
