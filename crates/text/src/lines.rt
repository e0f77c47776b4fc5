// A refusal, and the print of an accepted set.
ghost use Rattle.std.specs.Prelude.{◌≡◌, ◌+◌, ◌≤◌, ◌++◌, length};
ghost use Rattle.arrayvec.specs.ArrayVec.{array_vec_len};
ghost use Rattle.text.specs.Room.{most_key_bands, refused_room, accepted_room};
ghost use Rattle.text.specs.Lines.{refused_line, bands_line, total_line, totals_text, accepted_text};

use crate::Slots;
use crate::number::{put, put_bits, put_number};
use arrayvec::ArrayVec;

// The line of any number: of a Refusal it would promise less.
#[tactic(auto, using(crate::proofs::Laws::parts, crate::proofs::Lengths::refused_length), unfolding(crate::specs::Lines::refused_line))]
pub fn put_refused<const N: usize>(text: &mut ArrayVec<u8, N>, n: u8)
    requires { array_vec_len text.old + refused_room ≤ N }
    ensures { text.new.items ≡ text.old.items ++ refused_line n }
{
    put(text, b"refused ");
    put_number(text, usize::from(n), b'\n');
}

#[tactic(auto, using(crate::proofs::Laws::parts), unfolding(crate::specs::Lines::bands_line))]
fn put_bands<const N: usize>(text: &mut ArrayVec<u8, N>, n: usize)
    requires { array_vec_len text.old + length (bands_line n) ≤ N }
    ensures { text.new.items ≡ text.old.items ++ bands_line n }
{
    put(text, b"bands ");
    put_number(text, n, b'\n');
}

#[tactic(auto, using(crate::proofs::Laws::parts), unfolding(crate::specs::Lines::total_line))]
fn put_total<const N: usize>(text: &mut ArrayVec<u8, N>, b: usize, x: f64)
    requires { array_vec_len text.old + length (total_line b x) ≤ N }
    ensures { text.new.items ≡ text.old.items ++ total_line b x }
{
    put(text, b"total ");
    put_number(text, b, b' ');
    put_bits(text, x);
}

#[tactic(auto, using(crate::proofs::Laws::lines))]
fn put_totals<const N: usize>(text: &mut ArrayVec<u8, N>, totals: &[f64])
    requires { array_vec_len text.old + length (totals_text totals.now) ≤ N }
    ensures { text.new.items ≡ text.old.items ++ totals_text totals.now }
{
    for (b, x) in totals.iter().enumerate() {
        put_total(text, b, *x);
    }
}

#[tactic(auto, using(crate::proofs::Laws::parts), unfolding(crate::specs::Lines::accepted_text))]
pub fn put_accepted<const N: usize>(text: &mut ArrayVec<u8, N>, slots: &Slots<'_>, totals: &[f64])
    requires { (slots.now.first ≤ most_key_bands) × (slots.now.bands ≤ most_key_bands) × (length totals.now ≡ slots.now.first) × (array_vec_len text.old + accepted_room ≤ N) }
    ensures { text.new.items ≡ text.old.items ++ accepted_text slots.now.first slots.now.bands slots.now.flags.now slots.now.strengths.now totals.now }
{
    put_bands(text, slots.first);
    slots.put_all(text);
    put_totals(text, totals);
}
