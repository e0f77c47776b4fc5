// The tests of the door, in groups: each answers with the lowest number of its tests that fail.
ghost use Rattle.std.specs.Prelude.{◌≡◌, true};
ghost use Rattle.phonon.specs.Answers.{number_of};
ghost use Rattle.phonon.specs.Refusal.{measures_ok, lowest};
ghost use Rattle.integration_weights.specs.Refusal.{band_tests, weight_tests, width_tests, weights_refusal};

use crate::Shape;
use crate::shapes::width_of;
use checks::groups::check_points;
use checks::measures::measures_ok;
use checks::verdict::{lower_of, require};
use phonon::{Measures, Refusal, TotalsMeasures};

// 2, 3 and 4 of the bands table and the frequencies. The measures have been checked before.
fn check_bands(m: Measures, bands: &[i64], frequencies: &[f64]) -> Result<(), Refusal>
    requires { measures_ok m ≡ true }
    ensures { number_of result ≡ lowest (band_tests m bands.now frequencies.now) }
{
    let nb = 3 * m.atoms;
    let sized = (bands.len() == m.first) & (frequencies.len() == m.grid * nb);
    require(sized, Refusal::Length)?;
    require(
        checks::all_within(0, (nb - 1) as i64, bands),
        Refusal::Index,
    )?;
    require(checks::all_finite(frequencies), Refusal::NotFinite)
}

// 2 of first weights, second weights and flags of n slots, by their lengths.
fn check_weights(n: usize, first: usize, second: usize, flags: usize) -> Result<(), Refusal>
    ensures { number_of result ≡ lowest (weight_tests n first second flags) }
{
    let sized = (first == n) & (second == n) & (flags == n);
    require(sized, Refusal::Length)
}

// 4 and 13 of the width.
fn check_width(w: f64) -> Result<(), Refusal>
    ensures { number_of result ≡ lowest (width_tests w) }
{
    require(checks::is_finite(w), Refusal::NotFinite)?;
    require(0.0 < w, Refusal::Width)
}

// All of them.
pub fn check(
    m: TotalsMeasures,
    shape: Shape,
    triplet: [i64; 3],
    bands: &[i64],
    frequencies: &[f64],
    first: &[f64],
    second: &[f64],
    flags: &[u8],
) -> Result<(), Refusal>
    ensures { number_of result ≡ weights_refusal (record {
      measures = m;
      shape = shape;
      triplet = triplet;
      bands = bands.now;
      frequencies = frequencies.now;
      first = first.now;
      second = second.now;
      flags = flags.now;
    }) }
{
    let all = Measures::from(m);
    require(measures_ok(all), Refusal::Measure)?;
    let nb = 3 * m.atoms;
    let tables = check_bands(all, bands, frequencies);
    let lent = check_weights(m.first * nb * nb, first.len(), second.len(), flags.len());
    let points = check_points(m.grid, &triplet);
    let width = check_width(width_of(shape));
    lower_of(tables, lower_of(lent, lower_of(points, width)))
}
