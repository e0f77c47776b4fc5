// Every test of a set for the list door: the list is tested whole.
ghost use Rattle.std.specs.Prelude.{◌≡◌, List, Float, length};
ghost use Rattle.phonon.specs.Answers.{number_of};
ghost use Rattle.phonon.specs.Handed.{tables_of};
ghost use Rattle.phonon.specs.Refusal.{list_refusal};

use crate::phases::list_phases_ok;
use crate::tables::check_tables;
use checks::groups::{check_count, check_points, check_slots};
use checks::measures::{check_measures, list_ok};
use checks::verdict::{lower_of, require};
use phonon::{Refusal, Tables};

#[tactic(auto, using(checks::proofs::MeasureLaws::within_told, phonon::proofs::Accepted::measured_facts, checks::proofs::MeasureLaws::list_slots, checks::proofs::MeasureLaws::list_small))]
pub fn check_list(
    tables: &Tables<'_>,
    list: usize,
    triplets: &[i64],
    flags: &[u8],
    strengths: usize,
    work: usize,
) -> Result<(), Refusal>
    ensures { (v w : List Float) → length v ≡ strengths → length w ≡ work
        → number_of result ≡ list_refusal (record {
          tables = tables_of tables.now;
          list = list;
          triplets = triplets.now;
          flags = flags.now;
          strengths = v;
          work = w;
        }) }
{
    let Ok(z) = check_measures(tables.measures, tables.crystal.forces.form) else {
        return Err(Refusal::Measure);
    };
    require(list_ok(list), Refusal::Measure)?;
    let count = check_count(list, triplets);
    let slots = check_slots(list * z.slots, z, flags, strengths, work);
    let points = check_points(tables.measures.grid, triplets);
    lower_of(
        count,
        lower_of(check_tables(tables), lower_of(slots, points)),
    )?;
    require(list_phases_ok(tables, list, triplets), Refusal::Phase)
}
