// The words of a carton file, and what they are as numbers.
ghost use Rattle.std.specs.Prelude.{◌≡◌, ℕ, ◌*◌, ◌/◌, ◌<◌, length, get_or};
ghost use Rattle.phonon.specs.Number.{bits, table};
ghost use Rattle.carton.specs.Words.{word_at, words_of, int_of, byte_of, all_below};

use crate::blocks::eight_at;
use common::bits::f64_of_bits;

// Word w: 63 to a block.
#[tactic(auto, unfolding(crate::specs::Words::word_at))]
fn word_at(s: &[u8], w: usize) -> u64
    requires { w < 63 * (length s.now / 512) }
    ensures { result ≡ word_at s.now w }
{
    let at = 512 * (w / 63) + 8 * (w % 63);
    eight_at(s, at)
}

// Every word of the file.
pub fn read_words(s: &[u8], words: &mut [u64])
    requires { length words.old ≡ 63 * (length s.now / 512) }
    ensures { words.new ≡ words_of s.now }
{
    for (w, word) in words.iter_mut().enumerate() {
        *word = word_at(s, w);
    }
}

// A number that a word is.
pub trait FromWord: Copy {
    ghost of: { ℕ → Self };

    fn from_word(w: u64) -> Self
        ensures { result ≡ of w };
}

impl FromWord for f64 {
    ghost of = { bits };

    fn from_word(w: u64) -> f64 {
        f64_of_bits(w)
    }
}

// In two's complement.
impl FromWord for i64 {
    ghost of = { int_of };

    fn from_word(w: u64) -> i64 {
        w.cast_signed()
    }
}

// The low byte, a flag.
impl FromWord for u8 {
    ghost of = { byte_of };

    #[tactic(auto, unfolding(crate::specs::Words::byte_of))]
    fn from_word(w: u64) -> u8 {
        (w % 256) as u8
    }
}

// Every word as such a number.
pub fn read_column<T: FromWord>(words: &[u64], column: &mut [T])
    requires { length column.old ≡ length words.now }
    ensures { column.new ≡ table (length words.now) (λ k. T.of (get_or words.now k 0)) }
{
    // Not a zip of both: its loop has no name for what the column holds so far, and the promise is of that.
    for (k, entry) in column.iter_mut().enumerate() {
        *entry = T::from_word(words[k]);
    }
}

// Whether each word is below the limit.
pub(crate) fn all_below(limit: u64, words: &[u64]) -> bool
    ensures { result ≡ all_below limit words.now }
{
    words.iter().all(|w| *w < limit)
}
