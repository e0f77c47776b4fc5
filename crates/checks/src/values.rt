// Tests of points, cutoff and bath, which several doors share. The number before each is its refusal's.
ghost use Rattle.std.specs.Prelude.{◌≡◌, ◌≤◌};
ghost use Rattle.phonon.specs.Refusal.{points_ok, bath_finite, cutoff_ok, bath_ok};

use crate::{all_finite, all_within, is_finite, is_within, limits, sign_bit};
use phonon::Bath;

// 3: the grid points of the triplets.
pub fn points_ok(grid: usize, points: &[i64]) -> bool
    requires { (1 ≤ grid) × (grid ≤ 1000000) }
    ensures { result ≡ points_ok grid points.now }
{
    all_within(0, (grid - 1) as i64, points)
}

// 4: the temperature and the weights.
#[tactic(auto, unfolding(phonon::specs::Refusal::bath_finite, phonon::specs::Tests::all_true, phonon::specs::Tests::all_true_after))]
pub fn bath_finite(bath: Bath, first: &[f64], second: &[f64]) -> bool
    ensures { result ≡ bath_finite bath first.now second.now }
{
    let temperature = bath.temperature;
    is_finite(temperature) & all_finite(first) & all_finite(second)
}

// 7: the cutoff.
#[tactic(auto, unfolding(phonon::specs::Refusal::cutoff_ok))]
pub fn cutoff_ok(cutoff: f64) -> bool
    ensures { result ≡ cutoff_ok cutoff }
{
    !(cutoff < 0.0)
}

// 8: the weight and the temperature.
pub fn bath_ok(bath: Bath) -> bool
    ensures { result ≡ bath_ok bath }
{
    let weight = bath.weight;
    let temperature = bath.temperature;
    is_within(limits::LOWEST_WEIGHT, limits::HIGHEST_WEIGHT, weight) & !sign_bit(temperature)
}
