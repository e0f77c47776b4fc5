// The totals slot by slot, in listing order, k and then j: of a few bands this is done before lists are made.
ghost use Rattle.std.specs.Prelude.{◌≡◌, ◌≤◌, length};
ghost use Rattle.imag_self_energy.specs.Bands.{plain_bands, leg_bands};
ghost use Rattle.phonon.specs.ImagSelfEnergy.{contribution};
ghost use Rattle.imag_self_energy.specs.Totals.{band_totals};

use crate::occupations::later_bands;
use crate::slots::{Later, Slots};
use crate::{NO_BAND, PLAIN_BANDS, Shared};
use phonon::Band;

// What a slot that counts adds: p and q are its later bands, x and y its weights, v its strength. Not the listed term, which has its factors at hand
// and no test of the temperature.
#[tactic(auto, unfolding(phonon::specs::ImagSelfEnergy::contribution))]
fn contribution(h: Shared, p: Band, q: Band, x: f64, y: f64, v: f64) -> f64
    ensures { result ≡ contribution h.temperature h.weight p.occupation q.occupation x y v }
{
    if 0.0 < h.temperature {
        let n = p.occupation;
        let m = q.occupation;
        return ((n + m + 1.0) * x + (n - m) * y) * v * h.weight;
    }
    x * v * h.weight
}

// The totals of all positions.
#[tactic(auto, unfolding(phonon::specs::Number::fold))]
fn fill_plain(slots: &Slots<'_>, later: &Later<'_>, totals: &mut [f64])
    requires { (length totals.old ≡ slots.now.positions) × (length later.now.seconds.now ≡ slots.now.bands) }
    ensures { totals.new ≡ band_totals slots.now later.now.seconds.now later.now.thirds.now }
{
    let h = slots.shared;
    let n = slots.bands;
    let flags = slots.flags;
    let first = slots.integration.first;
    let second = slots.integration.second;
    let strengths = slots.strengths;
    for (b, place) in totals.iter_mut().enumerate() {
        let c = slots.block(b);
        let mut total = 0.0;
        for (k, q) in later.thirds.iter().enumerate() {
            for (j, p) in later.seconds.iter().enumerate() {
                let o = (c * n + j) * n + k;
                let s = (b * n + j) * n + k;
                if (flags[o] == 0) & (h.cutoff < p.frequency) & (h.cutoff < q.frequency) {
                    total += contribution(h, *p, *q, first[o], second[o], strengths[s]);
                }
            }
        }
        *place = total;
    }
}

// From the frequencies of the later legs. The arrays are made here, as in listed_totals: what made them for both could not lend them to its caller.
pub fn plain_totals(slots: &Slots<'_>, leg1: &[f64], leg2: &[f64], totals: &mut [f64])
    requires { (length totals.old ≡ slots.now.positions)
        × (slots.now.bands ≤ plain_bands)
        × (length leg1.now ≡ slots.now.bands)
        × (length leg2.now ≡ slots.now.bands) }
    ensures { totals.new ≡ band_totals slots.now (leg_bands slots.now.shared leg1.now) (leg_bands slots.now.shared leg2.now) }
{
    let n = slots.bands;
    let mut seconds = [NO_BAND; PLAIN_BANDS];
    let mut thirds = [NO_BAND; PLAIN_BANDS];
    let later = later_bands(
        slots.shared,
        leg1,
        leg2,
        &mut seconds[..n],
        &mut thirds[..n],
    );
    fill_plain(slots, &later, totals);
}
