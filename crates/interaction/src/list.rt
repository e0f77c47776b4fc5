// get_interaction of interaction.rs: each triplet of a list works its own part of the strengths.
ghost use Rattle.std.specs.Prelude.{◌≡◌};
ghost use Rattle.phonon.specs.Answers.{number_of};
ghost use Rattle.phonon.specs.Handed.{tables_of};
ghost use Rattle.phonon.specs.Interaction.{list_strengths};
ghost use Rattle.phonon.specs.Refusal.{list_refusal};
ghost use Rattle.phonon.specs.Doors.{cleared, StrengthsOutcome, list_outcome};

use checks::sizes::sizes_of;
use phonon::{Refusal, Tables};
use planes::array_at;
use real_to_normal::triplet::work_triplet;
use refusals::list::check_list;

// The worker of a list: the strengths of an accepted set, and the work buffer cleared. Handed what the door is, since its promise is of the same set.
fn work_list(
    tables: &Tables<'_>,
    list: usize,
    triplets: &[i64],
    flags: &[u8],
    strengths: &mut [f64],
    work: &mut [f64],
)
    requires { list_refusal (record {
      tables = tables_of tables.now;
      list = list;
      triplets = triplets.now;
      flags = flags.now;
      strengths = strengths.old;
      work = work.old;
    }) ≡ 0 }
    ensures { (strengths.new ≡ list_strengths (record {
      tables = tables_of tables.now;
      list = list;
      triplets = triplets.now;
      flags = flags.now;
      strengths = strengths.old;
      work = work.old;
    }))
        × (work.new ≡ cleared tables.now.measures work.old) }
{
    let slots = sizes_of(tables.measures, tables.crystal.forces.form).slots;
    // By places: three slices cut into parts of two lengths and zipped read no plainer.
    for t in 0..list {
        let from = t * slots;
        let to = from + slots;
        work_triplet(
            tables,
            array_at(triplets, t * 3),
            &flags[from..to],
            &mut strengths[from..to],
            work,
        );
    }
}

// A list of triplets: document 01's second door, which is handed both their number and their points: that these are 3 * list numbers is a test of it.
#[tactic(auto, using(crate::proofs::DoorLaws::list_refused, crate::proofs::DoorLaws::list_accepted))]
pub fn get_interaction(
    tables: &Tables<'_>,
    list: usize,
    triplets: &[i64],
    flags: &[u8],
    strengths: &mut [f64],
    work: &mut [f64],
) -> Result<(), Refusal>
    ensures { ◌≡◌ {A = StrengthsOutcome}
        (record { answer = number_of result; strengths = strengths.new; work = work.new })
        (list_outcome (record {
          tables = tables_of tables.now;
          list = list;
          triplets = triplets.now;
          flags = flags.now;
          strengths = strengths.old;
          work = work.old;
        })) }
{
    check_list(tables, list, triplets, flags, strengths.len(), work.len())?;
    work_list(tables, list, triplets, flags, strengths, work);
    Ok(())
}
