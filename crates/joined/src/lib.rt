// One triplet and its totals joined: the strengths of interaction.rs, and from them the totals of
// imag_self_energy.rs, never at a frequency point.
#![tactic(auto)]

ghost use Rattle.std.specs.Prelude.{◌≡◌};
ghost use Rattle.phonon.specs.Answers.{number_of};
ghost use Rattle.phonon.specs.Handed.{tables_of};
ghost use Rattle.phonon.specs.Doors.{JoinedOutcome, joined_outcome};

use imag_self_energy::{Sum, write_totals};
use phonon::{Bath, IntegrationWeights, Refusal, Tables, Weights};
use real_to_normal::triplet::work_triplet;
use refusals::joined_set::check_joined;

// Document 01's fourth door, which lists three lent buffers, side by side here and above: a struct of three `&mut` would be made for each call, and
// each clause name every buffer through it; of a struct of arrays behind a reference the borrow check lends no part of one field beside another.
#[tactic(auto, using(crate::proofs::JoinedLaws::refused, crate::proofs::JoinedLaws::accepted))]
pub fn joined_at_triplet(
    tables: &Tables<'_>,
    triplet: [i64; 3],
    flags: &[u8],
    bath: Bath,
    integration: IntegrationWeights<'_>,
    strengths: &mut [f64],
    totals: &mut [f64],
    work: &mut [f64],
) -> Result<(), Refusal>
    ensures { ◌≡◌ {A = JoinedOutcome}
        (record { answer = number_of result; strengths = strengths.new; totals = totals.new; work = work.new })
        (joined_outcome (record {
          tables = tables_of tables.now;
          triplet = triplet;
          flags = flags.now;
          bath = bath;
          first = integration.entry.first.now;
          second = integration.entry.second.now;
          strengths = strengths.old;
          totals = totals.old;
          work = work.old;
        })) }
{
    check_joined(
        tables,
        triplet,
        flags,
        bath,
        integration,
        strengths.len(),
        totals.len(),
        work.len(),
    )?;
    work_triplet(tables, triplet, flags, strengths, work);
    let sum = Sum {
        weights: Weights::PerSlot,
        bands: 3 * tables.measures.atoms,
        points: triplet,
        frequencies: tables.phonons.frequencies,
        cutoff: tables.settings.cutoff,
        flags,
        bath,
        integration,
    };
    write_totals(&sum, strengths, totals);
    Ok(())
}
