// The slots that are not flagged, in listing order: b, then k, then j.
ghost use Rattle.std.specs.Prelude.{◌≡◌, ◌+◌, ◌*◌, ◌≤◌, ◌<◌, ◌++◌, length};
ghost use Rattle.arrayvec.specs.ArrayVec.{array_vec_len};
ghost use Rattle.text.specs.Lines.{slot_line, slot_lines, column_lines, first_band_lines, slots_text};

use crate::number::{put, put_bits, put_number};
use arrayvec::ArrayVec;

// The slots of so many first bands, with their flags and strengths.
#[derive(Clone, Copy)]
pub struct Slots<'a> {
    pub first: usize,
    pub bands: usize,
    pub flags: &'a [u8],
    pub strengths: &'a [f64],
    pub ghost flags_reach: { first * bands * bands ≤ length flags.now },
    pub ghost strengths_reach: { first * bands * bands ≤ length strengths.now },
}

#[tactic(auto, using(crate::proofs::Laws::parts), unfolding(crate::specs::Lines::slot_line))]
fn put_slot<const N: usize>(text: &mut ArrayVec<u8, N>, b: usize, j: usize, k: usize, x: f64)
    requires { array_vec_len text.old + length (slot_line b j k x) ≤ N }
    ensures { text.new.items ≡ text.old.items ++ slot_line b j k x }
{
    put(text, b"slot ");
    put_number(text, b, b' ');
    put_number(text, j, b' ');
    put_number(text, k, b' ');
    put_bits(text, x);
}

impl Slots<'_> {
    // Slot (b, j, k).
    fn put_one<const N: usize>(&self, text: &mut ArrayVec<u8, N>, b: usize, j: usize, k: usize)
        requires room { array_vec_len text.old + length (slot_lines self.now.bands self.now.flags.now self.now.strengths.now b j k) ≤ N }
        requires inside { (b < self.now.first) × (j < self.now.bands) × (k < self.now.bands) }
        ensures { text.new.items ≡ text.old.items ++ slot_lines self.now.bands self.now.flags.now self.now.strengths.now b j k }
    {
        let slot = (b * self.bands + j) * self.bands + k;
        if self.flags[slot] == 0 {
            put_slot(text, b, j, k, self.strengths[slot]);
        }
    }

    // The slots of one first band and one third-leg band. Its loop and those below stand by themselves: a function of them all would take a closure
    // for what a turn puts, and say by a clause over `F.post` what that is, longer than a loop.
    #[tactic(auto, using(crate::proofs::Laws::lines))]
    fn put_column<const N: usize>(&self, text: &mut ArrayVec<u8, N>, b: usize, k: usize)
        requires room { array_vec_len text.old + length (column_lines self.now.bands self.now.flags.now self.now.strengths.now b k) ≤ N }
        requires inside { (b < self.now.first) × (k < self.now.bands) }
        ensures { text.new.items ≡ text.old.items ++ column_lines self.now.bands self.now.flags.now self.now.strengths.now b k }
    {
        for j in 0..self.bands {
            self.put_one(text, b, j, k);
        }
    }

    // The slots of one first band.
    #[tactic(auto, using(crate::proofs::Laws::lines))]
    fn put_first_band<const N: usize>(&self, text: &mut ArrayVec<u8, N>, b: usize)
        requires room { array_vec_len text.old + length (first_band_lines self.now.bands self.now.flags.now self.now.strengths.now b) ≤ N }
        requires inside { b < self.now.first }
        ensures { text.new.items ≡ text.old.items ++ first_band_lines self.now.bands self.now.flags.now self.now.strengths.now b }
    {
        for k in 0..self.bands {
            self.put_column(text, b, k);
        }
    }

    #[tactic(auto, using(crate::proofs::Laws::lines))]
    pub(crate) fn put_all<const N: usize>(&self, text: &mut ArrayVec<u8, N>)
        requires { array_vec_len text.old + length (slots_text self.now.first self.now.bands self.now.flags.now self.now.strengths.now) ≤ N }
        ensures { text.new.items ≡ text.old.items ++ slots_text self.now.first self.now.bands self.now.flags.now self.now.strengths.now }
    {
        for b in 0..self.first {
            self.put_first_band(text, b);
        }
    }
}
