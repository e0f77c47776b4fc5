// Number 1: the measures and the list's count within their limits, and the sizes that the measures fix.
ghost use Rattle.std.specs.Prelude.{◌≡◌};
ghost use Rattle.phonon.specs.Limits.{list_ok};
ghost use Rattle.phonon.specs.Refusal.{measures_ok};
ghost use Rattle.checks.specs.Answers.{measured_of};

use crate::limits;
use crate::sizes::sizes_of;
use crate::verdict::require;
use phonon::{Form, Measures, Refusal, Sizes};

// The atoms are tested by themselves first, so that 3 * atoms fits.
pub fn measures_ok(m: Measures) -> bool
    ensures { result ≡ measures_ok m }
{
    if limits::MOST_ATOMS < m.atoms {
        return false;
    }
    (1..=limits::MOST_ATOMS).contains(&m.atoms)
        & (1..=limits::MOST_SUPERCELL).contains(&m.supercell)
        & (1..=3 * m.atoms).contains(&m.first)
        & (1..=limits::MOST_GRID).contains(&m.grid)
        & (1..=limits::MOST_VECTORS).contains(&m.vectors)
}

#[tactic(auto, using(crate::proofs::MeasureLaws::small, crate::proofs::AnswerLaws::passed))]
pub fn check_measures(m: Measures, form: Form) -> Result<Sizes, Refusal>
    ensures { result ≡ measured_of m form }
{
    require(measures_ok(m), Refusal::Measure)?;
    Ok(sizes_of(m, form))
}

pub fn list_ok(list: usize) -> bool
    ensures { result ≡ list_ok list }
{
    (1..=limits::MOST_LIST).contains(&list)
}
