// The tests of totals alone: those of its own slices, and the groups that it shares with the other doors.
ghost use Rattle.std.specs.Prelude.{◌≡◌, true, ◌≤◌};
ghost use Rattle.phonon.specs.Answers.{number_of};
ghost use Rattle.phonon.specs.Limits.{entries_of};
ghost use Rattle.phonon.specs.Refusal.{measures_ok, lowest, alone_tests, totals_refusal};
ghost use Rattle.imag_self_energy.specs.Bands.{most_bands};

use checks::groups::{check_bath, check_points};
use checks::measures::measures_ok;
use checks::values::cutoff_ok;
use checks::verdict::{lower_of, require};
use phonon::{Bath, IntegrationWeights, Measures, Refusal, TotalsMeasures, Weights};

// How many flags, first and second weights there are, of so many first bands and bands.
#[tactic(auto, unfolding(phonon::specs::Limits::entries_of))]
fn entries_of(weights: Weights, first: usize, bands: usize) -> usize
    requires { (first ≤ most_bands) × (bands ≤ most_bands) }
    ensures { result ≡ entries_of weights first bands }
{
    match weights {
        Weights::PerSlot => first * bands * bands,
        Weights::AtFrequencyPoint => bands * bands,
    }
}

// 2, 4 and 7 of what totals alone has in place of the tables, with flags of n entries. The measures have been checked
// before.
fn check_alone(
    m: Measures,
    n: usize,
    frequencies: &[f64],
    cutoff: f64,
    flags: &[u8],
    strengths: &[f64],
) -> Result<(), Refusal>
    requires { measures_ok m ≡ true }
    ensures { number_of result ≡ lowest (alone_tests m n frequencies.now cutoff flags.now strengths.now) }
{
    let bands = 3 * m.atoms;
    let sized = (frequencies.len() == m.grid * bands)
        & (flags.len() == n)
        & (strengths.len() == m.first * bands * bands);
    require(sized, Refusal::Length)?;
    let finite = checks::is_finite(cutoff)
        & checks::all_finite(frequencies)
        & checks::all_finite(strengths);
    require(finite, Refusal::NotFinite)?;
    require(cutoff_ok(cutoff), Refusal::Cutoff)
}

// All of them. Handed what the door is, and no `Sum`: before the measures are tested 3 * atoms may not fit.
pub fn check(
    m: TotalsMeasures,
    weights: Weights,
    triplet: [i64; 3],
    frequencies: &[f64],
    cutoff: f64,
    flags: &[u8],
    strengths: &[f64],
    bath: Bath,
    integration: IntegrationWeights<'_>,
    totals: &[f64],
) -> Result<(), Refusal>
    ensures { number_of result ≡ totals_refusal (record {
      measures = m;
      weights = weights;
      triplet = triplet;
      frequencies = frequencies.now;
      cutoff = cutoff;
      flags = flags.now;
      strengths = strengths.now;
      bath = bath;
      first = integration.entry.first.now;
      second = integration.entry.second.now;
      totals = totals.now;
    }) }
{
    let all = Measures::from(m);
    require(measures_ok(all), Refusal::Measure)?;
    let entries = entries_of(weights, m.first, 3 * m.atoms);
    let alone = check_alone(all, entries, frequencies, cutoff, flags, strengths);
    let points = check_points(m.grid, &triplet);
    let rest = check_bath(entries, m.first, bath, integration, totals.len());
    lower_of(alone, lower_of(points, rest))
}
