// What `key` prints for any file: the carton is read, worked by the joined door, and put down as text.
#![tactic(auto)]

ghost use Rattle.std.specs.Prelude.{◌≡◌, true, ◌*◌, ◌/◌, ◌≤◌, [], length};
ghost use Rattle.phonon.specs.Sets.{slots};
ghost use Rattle.carton.specs.Blocks.{size_ok, blocks_ok};
ghost use Rattle.carton.specs.Fitted.{Fitted};
ghost use Rattle.carton.specs.Most.{most_work};
ghost use Rattle.carton.specs.Tables.{columns_of, lists_of};
ghost use Rattle.text.specs.Lines.{set_text};
ghost use Rattle.answer.specs.Text.{zeros, start_of, answer_text};
ghost use Rattle.answer.specs.Printed.{printed};

use arrayvec::ArrayVec;
use carton::{Columns, Heading, heading_of, read_column, read_words};
use carton_door::run_door;
use checks::verdict::require;
use phonon::Refusal;
use std::array;
use text::{Slots, put_accepted, put_refused};

// Room for a file of 96 blocks and one byte more, by which a longer file is known.
pub const MOST_INPUT: usize = 49153;

// Room for the lines of any file.
pub type Text = ArrayVec<u8, 25600>;

// The lines of a carton's set. The columns, which are only read, are one struct; the buffers stand side by side, as the door takes them. The text is
// lent, here and below: as a result it would be copied at each step on its way up.
fn set_lines(
    h: &Heading,
    columns: &Columns<'_>,
    strengths: &mut [f64],
    totals: &mut [f64],
    work: &mut [f64],
    text: &mut Text,
) -> Result<(), Refusal>
    requires { Fitted h.now (length columns.now.floats.now)
        × (strengths.old ≡ zeros (slots h.now.measures))
        × (totals.old ≡ zeros h.now.measures.first)
        × (work.old ≡ zeros most_work)
        × (text.old.items ≡ []) }
    ensures { printed result text.new ≡ set_text (start_of (lists_of columns.now) h.now) }
{
    run_door(h, columns, strengths, totals, work)?;
    let slots = Slots {
        first: h.measures.first,
        bands: 3 * h.measures.atoms,
        flags: &columns.bytes[h.places.flags..h.places.constants],
        strengths,
    };
    put_accepted(text, &slots, totals);
    Ok(())
}

// The lines of a carton whose words are read; columns and buffers are arrays of its own.
fn heading_lines(h: &Heading, words: &[u64], text: &mut Text) -> Result<(), Refusal>
    requires { Fitted h.now (length words.now) × (text.old.items ≡ []) }
    ensures { printed result text.new ≡ set_text (start_of (columns_of words.now) h.now) }
{
    let n = words.len();
    let mut floats = array::repeat::<f64, 6048>(0.0);
    let mut ints = array::repeat::<i64, 6048>(0);
    let mut bytes = array::repeat::<u8, 6048>(0);
    read_column(words, &mut floats[..n]);
    read_column(words, &mut ints[..n]);
    read_column(words, &mut bytes[..n]);
    let columns = Columns {
        floats: &floats[..n],
        ints: &ints[..n],
        bytes: &bytes[..n],
    };
    let first = h.measures.first;
    let slots = h.places.end - h.places.second;
    let mut strengths = array::repeat::<f64, 6048>(0.0);
    let mut totals = array::repeat::<f64, 6048>(0.0);
    let mut work = array::repeat::<f64, 6144>(0.0);
    set_lines(
        h,
        &columns,
        &mut strengths[..slots],
        &mut totals[..first],
        &mut work,
        text,
    )
}

// The lines of a file whose size and blocks are right; words has a place for each of its words.
fn blocks_lines(input: &[u8], words: &mut [u64], text: &mut Text) -> Result<(), Refusal>
    requires { (size_ok input.now ≡ true)
        × (blocks_ok input.now ≡ true)
        × (length words.old ≡ 63 * (length input.now / 512))
        × (text.old.items ≡ []) }
    ensures { printed result text.new ≡ answer_text input.now }
{
    read_words(input, words);
    let Ok(h) = heading_of(words) else {
        return Err(Refusal::Heading);
    };
    heading_lines(&h, words, text)
}

fn lines_of(input: &[u8], text: &mut Text) -> Result<(), Refusal>
    requires { text.old.items ≡ [] }
    ensures { printed result text.new ≡ answer_text input.now }
{
    require(carton::size_ok(input), Refusal::File)?;
    require(carton::blocks_ok(input), Refusal::Block)?;
    let mut words = array::repeat::<u64, 6048>(0);
    let n = 63 * (input.len() / 512);
    blocks_lines(input, &mut words[..n], text)
}

// The text for the bytes of any file, in place of what the lent text holds. A refusal's line stands alone.
pub fn put_answer(input: &[u8], text: &mut Text)
    ensures { text.new.items ≡ answer_text input.now }
{
    text.clear();
    let answered = lines_of(input, text);
    if let Err(refusal) = answered {
        text.clear();
        put_refused(text, u8::from(refusal));
    }
}

// The same text by itself.
pub fn answer(input: &[u8]) -> Text
    ensures { result.items ≡ answer_text input.now }
{
    let mut text = Text::new();
    put_answer(input, &mut text);
    text
}
