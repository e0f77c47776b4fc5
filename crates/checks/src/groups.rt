// Groups of tests that several doors share: the refusal of the lowest number of a group's tests that fail. The measures
// have been checked before.
ghost use Rattle.std.specs.Prelude.{◌≡◌, true, ◌≤◌, length};
ghost use Rattle.phonon.specs.Answers.{number_of};
ghost use Rattle.phonon.specs.Limits.{list_ok};
ghost use Rattle.phonon.specs.Refusal.{lowest, count_tests, slot_tests, point_tests, bath_tests};

use crate::values::{bath_finite, bath_ok, points_ok};
use crate::verdict::require;
use phonon::{Bath, IntegrationWeights, Refusal, Sizes};

// A list of so many triplets, whose count has been checked: 2.
pub fn check_count(list: usize, triplets: &[i64]) -> Result<(), Refusal>
    requires { list_ok list ≡ true }
    ensures { number_of result ≡ lowest (count_tests list triplets.now) }
{
    require(triplets.len() == 3 * list, Refusal::Length)
}

// Flags and strengths of n slots, and the work buffer: 2. Those that the door lends to be written come by their lengths: nothing in them is read.
pub fn check_slots(
    n: usize,
    z: Sizes,
    flags: &[u8],
    strengths: usize,
    work: usize,
) -> Result<(), Refusal>
    ensures { number_of result ≡ lowest (slot_tests n z (length flags.now) strengths work) }
{
    let sized = (flags.len() == n) & (strengths == n) & (z.work <= work);
    require(sized, Refusal::Length)
}

// The grid points of the triplets: 3.
pub fn check_points(grid: usize, points: &[i64]) -> Result<(), Refusal>
    requires { (1 ≤ grid) × (grid ≤ 1000000) }
    ensures { number_of result ≡ lowest (point_tests grid points.now) }
{
    require(points_ok(grid, points), Refusal::Index)
}

// The bath, both weights of n entries, and the totals of so many first bands, by their length: 2, 4 and 8.
pub fn check_bath(
    n: usize,
    bands: usize,
    bath: Bath,
    weights: IntegrationWeights<'_>,
    totals: usize,
) -> Result<(), Refusal>
    ensures { number_of result ≡ lowest (bath_tests n bands bath weights.entry.first.now weights.entry.second.now totals) }
{
    let sized = (weights.first.len() == n) & (weights.second.len() == n) & (totals == bands);
    require(sized, Refusal::Length)?;
    require(
        bath_finite(bath, weights.first, weights.second),
        Refusal::NotFinite,
    )?;
    require(bath_ok(bath), Refusal::Bath)
}
