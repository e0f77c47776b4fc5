// imag_self_energy.rs: the band totals of one triplet, and the door totals alone, with flags in place of g_pos.
#![tactic(auto)]

mod check;
mod listed;
mod occupations;
mod plain;
mod slots;

ghost use Rattle.std.specs.Prelude.{◌≡◌, ◌+◌, ◌*◌, ◌≤◌, length};
ghost use Rattle.phonon.specs.Answers.{number_of};
ghost use Rattle.phonon.specs.Number.{index, int};
ghost use Rattle.phonon.specs.ImagSelfEnergy as Ise;
ghost use Rattle.phonon.specs.Doors.{TotalsOutcome, totals_outcome};
ghost use Rattle.imag_self_energy.specs.Bands.{Sized};
ghost use Rattle.imag_self_energy.specs.Totals.{sum_of};

use crate::check::check;
use crate::listed::listed_totals;
use crate::plain::plain_totals;
use crate::slots::Slots;
use common::float_of;
use phonon::{Band, Bath, IntegrationWeights, Refusal, TotalsMeasures, Weights};
use planes::{index_of, part_of};

// The most bands of a leg, and the places of a block of so many; and the same where few bands have lists of their own: lists and factors are cleared
// when they are made, and with those of MOST_BANDS totals alone of 9 bands take 2.4 to 3.7 us and not 1.9 to 2.7.
const MOST_BANDS: usize = 24;

const MOST_PLACES: usize = MOST_BANDS * MOST_BANDS;

const FEW_BANDS: usize = 12;

const FEW_PLACES: usize = FEW_BANDS * FEW_BANDS;

// The most bands that are summed with no lists. They have arrays of their own: with those of MOST_BANDS in their place totals alone of one atom take
// 195 ns and not 183 at temperature 0.0, 412 and not 400 above it. An ArrayVec fills its unused places as well.
const PLAIN_BANDS: usize = 6;

// What an array of bands holds before it is filled. An occupation of -1.0 is document 01's mark of a band that has none.
const NO_BAND: Band = Band {
    frequency: 0.0,
    occupation: -1.0,
};

// What all slots of a triplet share: the weight as an f64.
#[derive(Clone, Copy)]
struct Shared {
    temperature: f64,
    cutoff: f64,
    weight: f64,
}

// What the totals of one triplet are sums over, beside its strengths: the definition's Sum, and the bath.
#[derive(Clone, Copy)]
pub struct Sum<'a> {
    pub weights: Weights,
    pub bands: usize,
    pub points: [i64; 3],
    pub frequencies: &'a [f64],
    pub cutoff: f64,
    pub flags: &'a [u8],
    pub bath: Bath,
    pub integration: IntegrationWeights<'a>,
}

// The totals of one triplet. There are as many as totals is long.
pub fn write_totals(sum: &Sum<'_>, strengths: &[f64], totals: &mut [f64])
    requires { Sized sum.now.weights sum.now.bands (length totals.old) sum.now.flags.now
        sum.now.integration.first.now sum.now.integration.second.now strengths.now
        × ((index (int sum.now.points 1) + 1) * sum.now.bands ≤ length sum.now.frequencies.now)
        × ((index (int sum.now.points 2) + 1) * sum.now.bands ≤ length sum.now.frequencies.now) }
    ensures { totals.new ≡ Ise.totals (length totals.old) (sum_of sum.now) sum.now.bath.temperature strengths.now }
{
    let g1 = index_of(sum.points[1]);
    let g2 = index_of(sum.points[2]);
    let leg1 = part_of(sum.frequencies, g1, sum.bands);
    let leg2 = part_of(sum.frequencies, g2, sum.bands);
    let shared = Shared {
        temperature: sum.bath.temperature,
        cutoff: sum.cutoff,
        weight: float_of(sum.bath.weight),
    };
    let slots = Slots {
        shared,
        weights: sum.weights,
        positions: totals.len(),
        bands: sum.bands,
        flags: sum.flags,
        integration: sum.integration,
        strengths,
    };
    if sum.bands <= PLAIN_BANDS {
        plain_totals(&slots, leg1, leg2, totals);
    } else if sum.bands <= FEW_BANDS {
        listed_totals::<FEW_BANDS, FEW_PLACES>(&slots, leg1, leg2, totals);
    } else {
        listed_totals::<MOST_BANDS, MOST_PLACES>(&slots, leg1, leg2, totals);
    }
}

// Totals alone: document 01's third door. It is handed what document 01 lists, one by one: `Sum` has the bands, which are known only once the
// measures are tested.
pub fn imag_self_energy_at_triplet(
    m: TotalsMeasures,
    weights: Weights,
    triplet: [i64; 3],
    frequencies: &[f64],
    cutoff: f64,
    flags: &[u8],
    strengths: &[f64],
    bath: Bath,
    integration: IntegrationWeights<'_>,
    totals: &mut [f64],
) -> Result<(), Refusal>
    ensures { ◌≡◌ {A = TotalsOutcome} (record { answer = number_of result; totals = totals.new })
        (totals_outcome (record {
          measures = m;
          weights = weights;
          triplet = triplet;
          frequencies = frequencies.now;
          cutoff = cutoff;
          flags = flags.now;
          strengths = strengths.now;
          bath = bath;
          first = integration.entry.first.now;
          second = integration.entry.second.now;
          totals = totals.old;
        })) }
{
    check(
        m,
        weights,
        triplet,
        frequencies,
        cutoff,
        flags,
        strengths,
        bath,
        integration,
        totals,
    )?;
    let sum = Sum {
        weights,
        bands: 3 * m.atoms,
        points: triplet,
        frequencies,
        cutoff,
        flags,
        bath,
        integration,
    };
    write_totals(&sum, strengths, totals);
    Ok(())
}
