// Document 02, Ask 1: the integration weights of one triplet, from a broadening shape: both weights and the flag of every slot.
#![tactic(auto)]

mod check;
mod fill;
mod shapes;

ghost use Rattle.std.specs.Prelude.{◌≡◌};
ghost use Rattle.phonon.specs.Answers.{number_of};
ghost use Rattle.integration_weights.specs.Doors.{WeightsOutcome, weights_outcome};

use crate::check::check;
use crate::fill::fill_weights;
use phonon::{Legs, Refusal, TotalsMeasures};
use planes::{index_of, part_of};

// What stands for the delta function of energy conservation: a Gaussian of a width, a Lorentzian or a box of a half-width.
#[derive(Clone, Copy)]
pub enum Shape {
    Gaussian(f64),
    Lorentzian(f64),
    Box(f64),
}

// The integration weights of one triplet: a door. It is handed neither a cutoff nor a bath. Its eight parameters go to its tests as they are:
// no other door is handed the same, so that a struct of them would be made for this one call.
pub fn integration_weights_at_triplet(
    m: TotalsMeasures,
    shape: Shape,
    triplet: [i64; 3],
    bands: &[i64],
    frequencies: &[f64],
    first: &mut [f64],
    second: &mut [f64],
    flags: &mut [u8],
) -> Result<(), Refusal>
    ensures { ◌≡◌ {A = WeightsOutcome}
        (record { answer = number_of result; first = first.new; second = second.new; flags = flags.new })
        (weights_outcome (record {
          measures = m;
          shape = shape;
          triplet = triplet;
          bands = bands.now;
          frequencies = frequencies.now;
          first = first.old;
          second = second.old;
          flags = flags.old;
        })) }
{
    check(m, shape, triplet, bands, frequencies, first, second, flags)?;
    let n = 3 * m.atoms;
    // One by one: part_of asks that the part lies in the slice, which a closure for Legs::map would have to say of its point by a clause.
    let g0 = index_of(triplet[0]);
    let g1 = index_of(triplet[1]);
    let g2 = index_of(triplet[2]);
    let legs = Legs {
        leg0: part_of(frequencies, g0, n),
        leg1: part_of(frequencies, g1, n),
        leg2: part_of(frequencies, g2, n),
    };
    fill_weights(shape, bands, legs, first, second, flags);
    Ok(())
}
