// The bands of the later legs, with their occupations.
ghost use Rattle.std.specs.Prelude.{◌≡◌, ◌≤◌, [], ◌∷◌, length};
ghost use Rattle.funcs.specs.Occupation.{marked};
ghost use Rattle.imag_self_energy.specs.Bands.{most_bands, leg_bands};

use crate::Shared;
use crate::slots::Later;
use phonon::Band;

// The occupation of a band; one that does not exceed the cutoff has the source's mark, -1.0.
#[tactic(auto, using(crate::proofs::Laws::above))]
fn occupation(temperature: f64, cutoff: f64, f: f64) -> f64
    ensures { result ≡ marked temperature cutoff f }
{
    if cutoff < f {
        return funcs::bose_einstein(f, temperature);
    }
    -1.0
}

// Of two bands, side by side. No one function of any count: that of one band would be its own way out.
fn occupations(temperature: f64, cutoff: f64, f: f64, g: f64) -> [f64; 2]
    ensures { result ≡ marked temperature cutoff f ∷ marked temperature cutoff g ∷ [] }
{
    if (cutoff < f) & (cutoff < g) {
        return funcs::bose_einsteins([f, g], temperature);
    }
    [
        occupation(temperature, cutoff, f),
        occupation(temperature, cutoff, g),
    ]
}

// The bands of both later legs, from their frequencies, in the room that is lent: of each leg one at a time. By index, since four slices
// zipped read no plainer.
pub fn later_bands<'a>(
    h: Shared,
    leg1: &[f64],
    leg2: &[f64],
    seconds: &'a mut [Band],
    thirds: &'a mut [Band],
) -> Later<'a>
    requires { (length leg1.now ≤ most_bands)
        × (length leg2.now ≡ length leg1.now)
        × (length seconds.old ≡ length leg1.now)
        × (length thirds.old ≡ length leg1.now) }
    ensures { (result.seconds.now ≡ leg_bands h leg1.now) × (result.thirds.now ≡ leg_bands h leg2.now) × (length result.seconds.now ≡ length leg1.now) }
{
    for j in 0..leg1.len() {
        let f = leg1[j];
        let g = leg2[j];
        let [n, m] = occupations(h.temperature, h.cutoff, f, g);
        seconds[j] = Band {
            frequency: f,
            occupation: n,
        };
        thirds[j] = Band {
            frequency: g,
            occupation: m,
        };
    }
    Later { seconds, thirds }
}
