// Every test of a set for the one-triplet door. The phases are worked out only from tables and points that are
// good. The lent buffers are told by their lengths: nothing in them is read, and the promise holds of any buffers of these lengths.
ghost use Rattle.std.specs.Prelude.{◌≡◌, List, Float, length};
ghost use Rattle.phonon.specs.Answers.{number_of};
ghost use Rattle.phonon.specs.Handed.{tables_of};
ghost use Rattle.phonon.specs.Refusal.{triplet_refusal};

use crate::phases::phases_ok;
use crate::tables::check_tables;
use checks::groups::{check_points, check_slots};
use checks::measures::check_measures;
use checks::verdict::{lower_of, require};
use phonon::{Refusal, Tables};

#[tactic(auto, using(checks::proofs::MeasureLaws::within_told, phonon::proofs::Accepted::measured_facts))]
pub fn check_triplet(
    tables: &Tables<'_>,
    triplet: [i64; 3],
    flags: &[u8],
    strengths: usize,
    work: usize,
) -> Result<(), Refusal>
    ensures { (v w : List Float) → length v ≡ strengths → length w ≡ work
        → number_of result ≡ triplet_refusal (record {
          tables = tables_of tables.now;
          triplet = triplet;
          flags = flags.now;
          strengths = v;
          work = w;
        }) }
{
    // By `let .. else` and not by `?`: document 01 names this form for a stage that begins only from the good answer before it.
    let Ok(z) = check_measures(tables.measures, tables.crystal.forces.form) else {
        return Err(Refusal::Measure);
    };
    let slots = check_slots(z.slots, z, flags, strengths, work);
    let points = check_points(tables.measures.grid, &triplet);
    lower_of(check_tables(tables), lower_of(slots, points))?;
    require(phases_ok(tables, &triplet), Refusal::Phase)
}
