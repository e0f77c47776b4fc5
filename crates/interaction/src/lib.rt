// interaction.rs: the doors of the strengths.
#![tactic(auto)]

pub mod list;

ghost use Rattle.std.specs.Prelude.{◌≡◌};
ghost use Rattle.phonon.specs.Answers.{number_of};
ghost use Rattle.phonon.specs.Handed.{tables_of};
ghost use Rattle.phonon.specs.Doors.{StrengthsOutcome, triplet_outcome};

use phonon::{Refusal, Tables};
use real_to_normal::triplet::work_triplet;
use refusals::triplet::check_triplet;

// One triplet: document 01's first door. Strengths and work stand side by side, here and in the list's functions: a struct of two `&mut` would be
// made anew for each triplet of a list, whose part of the strengths is its own.
#[tactic(auto, using(crate::proofs::DoorLaws::refused, crate::proofs::DoorLaws::accepted))]
pub fn get_interaction_at_triplet(
    tables: &Tables<'_>,
    triplet: [i64; 3],
    flags: &[u8],
    strengths: &mut [f64],
    work: &mut [f64],
) -> Result<(), Refusal>
    ensures { ◌≡◌ {A = StrengthsOutcome}
        (record { answer = number_of result; strengths = strengths.new; work = work.new })
        (triplet_outcome (record {
          tables = tables_of tables.now;
          triplet = triplet;
          flags = flags.now;
          strengths = strengths.old;
          work = work.old;
        })) }
{
    check_triplet(tables, triplet, flags, strengths.len(), work.len())?;
    work_triplet(tables, triplet, flags, strengths, work);
    Ok(())
}
