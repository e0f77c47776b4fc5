// What the totals of one triplet read: its slots, and the bands of its later legs.
ghost use Rattle.std.specs.Prelude.{◌≡◌, ◌≤◌, length};
ghost use Rattle.imag_self_energy.specs.Bands.{most_bands, Sized};

use crate::Shared;
use phonon::{Band, IntegrationWeights, Weights};

// The slots of as many first bands as there are positions, and of so many bands of each later leg. The totals, one of each position, are written,
// and so stand beside it: that they are as many is a clause of each function that writes them.
#[derive(Clone, Copy)]
pub struct Slots<'a> {
    pub shared: Shared,
    pub weights: Weights,
    pub positions: usize,
    pub bands: usize,
    pub flags: &'a [u8],
    pub integration: IntegrationWeights<'a>,
    pub strengths: &'a [f64],
    pub ghost sized: { Sized weights bands positions flags.now integration.first.now integration.second.now strengths.now },
}

// The bands of both later legs, of each as many. Every one of the second goes with every one of the third: no array of pairs.
#[derive(Clone, Copy)]
pub struct Later<'a> {
    pub seconds: &'a [Band],
    pub thirds: &'a [Band],
    pub ghost few: { length seconds.now ≤ most_bands },
    pub ghost alike: { length thirds.now ≡ length seconds.now },
}

impl Slots<'_> {
    ghost use Rattle.std.specs.Prelude.{◌≡◌};
    ghost use Rattle.phonon.specs.ImagSelfEnergy.{block};

    // The first band whose block of flags and weights position b reads.
    #[tactic(auto, unfolding(phonon::specs::ImagSelfEnergy::block))]
    pub fn block(&self, b: usize) -> usize
        ensures { result ≡ block self.now.weights b }
    {
        match self.weights {
            Weights::PerSlot => b,
            Weights::AtFrequencyPoint => 0,
        }
    }
}
