// The totals by lists of the slots that count: pair (j, k) of n bands has place j * n + k, and slot (b, j, k) is
// b * (n * n) behind it. Each place is written behind a list, and counts or is written over, with no branch. So a list is an array and a count, and
// no ArrayVec, which has nothing behind its end. What the lists have room for is a clause: they are lent one by one, and only some of them to each.
ghost use Rattle.std.specs.Prelude.{◌≡◌, ℕ, Float, ◌+◌, ◌*◌, ◌<◌, ◌≤◌, length, get_or};
ghost use Rattle.phonon.specs.Number.{◌⊕◌, f0, fold, table};
ghost use Rattle.phonon.specs.ImagSelfEnergy.{block};
ghost use Rattle.imag_self_energy.specs.Bands.{most_bands, leg_bands};
ghost use Rattle.imag_self_energy.specs.Lists.{Places, Listed, pair_walk, unflagged_walk, Factors, place_term, pair_total};
ghost use Rattle.imag_self_energy.specs.Totals.{band_totals};

use crate::NO_BAND;
use crate::occupations::later_bands;
use crate::slots::{Later, Slots};
use planes::part_of;

// ---- lists of places

// The places of the pairs whose bands both exceed the cutoff, in listing order, k and then j. The answer is how many.
#[tactic(auto, using(crate::proofs::ListLaws::listed_none), unfolding(phonon::specs::Number::fold))]
fn list_pairs(cutoff: f64, later: &Later<'_>, pairs: &mut [u16]) -> usize
    requires { length later.now.seconds.now * length later.now.seconds.now ≤ length pairs.old }
    ensures { (result ≤ length later.now.seconds.now * length later.now.seconds.now)
        × Listed (length later.now.seconds.now * length later.now.seconds.now)
        (pair_walk cutoff (length later.now.seconds.now) later.now.seconds.now later.now.thirds.now) pairs.new result }
{
    let n = later.seconds.len();
    let mut m = 0;
    for (k, q) in later.thirds.iter().enumerate() {
        for (j, p) in later.seconds.iter().enumerate() {
            pairs[m] = (j * n + k) as u16;
            m += usize::from((cutoff < p.frequency) & (cutoff < q.frequency));
        }
    }
    m
}

// Of the listed pairs those that are unflagged in block c, and those in block d, of area flags each. The answer is how
// many of each. The pairs are read once for both.
#[tactic(auto, using(crate::proofs::ListLaws::listed_none), unfolding(phonon::specs::Number::fold, crate::specs::Lists::unflagged_walk))]
fn list_unflagged(
    pairs: &[u16],
    area: usize,
    flags: &[u8],
    c: usize,
    d: usize,
    one: &mut [u16],
    two: &mut [u16],
) -> (usize, usize)
    requires { (area ≤ most_bands * most_bands)
        × (length pairs.now ≤ area)
        × Places area pairs.now (length pairs.now)
        × (length pairs.now ≤ length one.old)
        × (length pairs.now ≤ length two.old)
        × ((c + 1) * area ≤ length flags.now)
        × ((d + 1) * area ≤ length flags.now) }
    ensures { Listed area (unflagged_walk area c flags.now pairs.now (length pairs.now)) one.new result.0
        × Listed area (unflagged_walk area d flags.now pairs.now (length pairs.now)) two.new result.1 }
{
    let from = c * area;
    let other = d * area;
    let mut m = 0;
    let mut l = 0;
    for x in pairs {
        let o = usize::from(*x);
        one[m] = *x;
        m += usize::from(flags[from + o] == 0);
        two[l] = *x;
        l += usize::from(flags[other + o] == 0);
    }
    (m, l)
}

// ---- the sum, in listing order

// What the occupations of a pair make of its two weights: a factor of each.
#[derive(Clone, Copy)]
struct Factor {
    sum: f64,
    difference: f64,
}

const NO_FACTOR: Factor = Factor {
    sum: 0.0,
    difference: 0.0,
};

// Those of each pair, at its place.
fn fill_factors(later: &Later<'_>, factors: &mut [Factor])
    requires { length later.now.seconds.now * length later.now.seconds.now ≤ length factors.old }
    ensures { Factors (length later.now.seconds.now) later.now.seconds.now later.now.thirds.now factors.new }
{
    let n = later.seconds.len();
    for (j, p) in later.seconds.iter().enumerate() {
        for (k, q) in later.thirds.iter().enumerate() {
            factors[j * n + k] = Factor {
                sum: p.occupation + q.occupation + 1.0,
                difference: p.occupation - q.occupation,
            };
        }
    }
}

// What the term of each place of a list adds up to, in its order.
fn sum_of<F: Fn(usize) -> f64>(list: &[u16], term: F) -> f64
    requires { (i : ℕ) → i < length list.now → F.pre term (get_or list.now i 0) }
    ensures { (h : ℕ → Float) → ((i : ℕ) (r : Float) → i < length list.now → F.post term (get_or list.now i 0) r → r ≡ h (get_or list.now i 0))
        → result ≡ fold (length list.now) f0 (λ i t. t ⊕ h (get_or list.now i 0)) }
{
    let mut total = 0.0;
    for place in list {
        total += term(usize::from(*place));
    }
    total
}

// The listed slots, with block c of the weights and block b of the strengths: the temperature is tested once for them all.
fn sum_listed(slots: &Slots<'_>, list: &[u16], factors: &[Factor], c: usize, b: usize) -> f64
    requires { Places (slots.now.bands * slots.now.bands) list.now (length list.now)
        × (slots.now.bands * slots.now.bands ≤ length factors.now)
        × ((c + 1) * (slots.now.bands * slots.now.bands) ≤ length slots.now.integration.first.now)
        × ((c + 1) * (slots.now.bands * slots.now.bands) ≤ length slots.now.integration.second.now)
        × ((b + 1) * (slots.now.bands * slots.now.bands) ≤ length slots.now.strengths.now) }
    ensures { result ≡ fold (length list.now) f0
        (λ i t. t ⊕ place_term slots.now.shared factors.now (slots.now.bands * slots.now.bands) c slots.now.integration.first.now slots.now.integration.second.now
        b slots.now.strengths.now (get_or list.now i 0)) }
{
    let area = slots.bands * slots.bands;
    let weight = slots.shared.weight;
    let x = part_of(slots.integration.first, c, area);
    let v = part_of(slots.strengths, b, area);
    if 0.0 < slots.shared.temperature {
        let y = part_of(slots.integration.second, c, area);
        return sum_of(list, |o| {
            let f = factors[o];
            (f.sum * x[o] + f.difference * y[o]) * v[o] * weight
        });
    }
    sum_of(list, |o| x[o] * v[o] * weight)
}

// The totals of all positions, two at a time: of each the slots in listing order, k and then j. Lent are the pairs
// that count, their factors, and room for two lists of n * n. By index, which says what blocks a position reads: chunks
// of two totals read no plainer, since a last one may stand alone.
fn fill_totals(
    slots: &Slots<'_>,
    pairs: &[u16],
    factors: &[Factor],
    one: &mut [u16],
    two: &mut [u16],
    totals: &mut [f64],
)
    requires { (length totals.old ≡ slots.now.positions)
        × (length pairs.now ≤ slots.now.bands * slots.now.bands)
        × Places (slots.now.bands * slots.now.bands) pairs.now (length pairs.now)
        × (slots.now.bands * slots.now.bands ≤ length factors.now)
        × (slots.now.bands * slots.now.bands ≤ length one.old)
        × (slots.now.bands * slots.now.bands ≤ length two.old) }
    ensures { totals.new ≡ table (length totals.old)
        (λ b. pair_total slots.now.shared (slots.now.bands * slots.now.bands) (length pairs.now) pairs.now slots.now.flags.now slots.now.integration.first.now slots.now.integration.second.now
        slots.now.strengths.now factors.now (block slots.now.weights b) b) }
{
    let area = slots.bands * slots.bands;
    let positions = totals.len();
    for b in (0..positions).step_by(2) {
        // The next, or b itself if it is the last.
        let e = (b + 1).min(positions - 1);
        let c = slots.block(b);
        let d = slots.block(e);
        let (m, l) = list_unflagged(pairs, area, slots.flags, c, d, one, two);
        totals[b] = sum_listed(slots, &one[..m], factors, c, b);
        totals[e] = sum_listed(slots, &two[..l], factors, d, e);
    }
}

// From the frequencies of the later legs, of at most N bands each: by lists and factors, each with room for PLACES, which is N * N, since no
// constant argument may be worked out of another.
pub fn listed_totals<const N: usize, const PLACES: usize>(
    slots: &Slots<'_>,
    leg1: &[f64],
    leg2: &[f64],
    totals: &mut [f64],
)
    requires { (length totals.old ≡ slots.now.positions)
        × (slots.now.bands ≤ N)
        × (N ≤ most_bands)
        × (slots.now.bands * slots.now.bands ≤ PLACES)
        × (PLACES ≤ most_bands * most_bands)
        × (length leg1.now ≡ slots.now.bands)
        × (length leg2.now ≡ slots.now.bands) }
    ensures { totals.new ≡ band_totals slots.now (leg_bands slots.now.shared leg1.now) (leg_bands slots.now.shared leg2.now) }
{
    let n = slots.bands;
    let mut seconds = [NO_BAND; N];
    let mut thirds = [NO_BAND; N];
    let later = later_bands(
        slots.shared,
        leg1,
        leg2,
        &mut seconds[..n],
        &mut thirds[..n],
    );
    let mut pairs = [0u16; PLACES];
    let mut one = [0u16; PLACES];
    let mut two = [0u16; PLACES];
    let mut factors = [NO_FACTOR; PLACES];
    let count = list_pairs(slots.shared.cutoff, &later, &mut pairs);
    fill_factors(&later, &mut factors);
    fill_totals(slots, &pairs[..count], &factors, &mut one, &mut two, totals);
}
