// Every test of a set for the joined door: those of its triplet, and those of the bath, the weights and the totals.
ghost use Rattle.std.specs.Prelude.{◌≡◌, List, Float, length};
ghost use Rattle.phonon.specs.Answers.{number_of};
ghost use Rattle.phonon.specs.Handed.{tables_of};
ghost use Rattle.phonon.specs.Refusal.{joined_refusal};

use crate::triplet::check_triplet;
use checks::groups::check_bath;
use checks::measures::check_measures;
use checks::verdict::lower_of;
use phonon::{Bath, IntegrationWeights, Refusal, Tables};

// The parameters are the door's own, in its order: a struct of them would be put together there for this one call.
pub fn check_joined(
    tables: &Tables<'_>,
    triplet: [i64; 3],
    flags: &[u8],
    bath: Bath,
    weights: IntegrationWeights<'_>,
    strengths: usize,
    totals: usize,
    work: usize,
) -> Result<(), Refusal>
    ensures { (v u w : List Float) → length v ≡ strengths → length u ≡ totals → length w ≡ work
        → number_of result ≡ joined_refusal (record {
          tables = tables_of tables.now;
          triplet = triplet;
          flags = flags.now;
          bath = bath;
          first = weights.entry.first.now;
          second = weights.entry.second.now;
          strengths = v;
          totals = u;
          work = w;
        }) }
{
    let Ok(z) = check_measures(tables.measures, tables.crystal.forces.form) else {
        return Err(Refusal::Measure);
    };
    let one = check_triplet(tables, triplet, flags, strengths, work);
    let bath = check_bath(z.slots, tables.measures.first, bath, weights, totals);
    lower_of(one, bath)
}
