// The heading of a carton: measures, choices, the places of the tables, and refusal 12.
ghost use Rattle.std.specs.Prelude.{◌≡◌, true, ◌/◌, ◌%◌, ◌≤◌, ◌<◌, ◌==◌, if◌then◌else◌, length};
ghost use Rattle.carton.specs.Heading.{places_of, words_match, read_of};
ghost use Rattle.carton.specs.Most.{most_words};
ghost use Rattle.carton.specs.Small.{small_ok};

use crate::words::all_below;
use checks::sizes::sizes_of;
use checks::verdict::require;
use phonon::{Anchoring, Form, Measures, Refusal, Symmetry};
use planes::work_length;

// Where each table starts, the addresses at word 25, and where the last one ends. A table ends where the next starts, so that a range for each
// would say every place twice.
#[derive(Clone, Copy)]
pub struct Places {
    pub vectors: usize,
    pub multiplicity: usize,
    pub p2s: usize,
    pub s2p: usize,
    pub masses: usize,
    pub bands: usize,
    pub frequencies: usize,
    pub eigenvectors: usize,
    pub shortest: usize,
    pub nonzero: usize,
    pub flags: usize,
    pub constants: usize,
    pub first: usize,
    pub second: usize,
    pub end: usize,
}

// What words 0 to 6 say, and the places that follow from it. That these fit a file (`Fitted`) is no ghost field: it is of the file's length as well.
#[derive(Clone, Copy)]
pub struct Heading {
    pub measures: Measures,
    pub form: Form,
    pub anchoring: Anchoring,
    pub symmetry: Symmetry,
    pub places: Places,
}

// ---- the flag bits

// What the bit of this worth says.
fn choice<T: Copy>(bits: u64, worth: u64, set: T, off: T) -> T
    requires { 0 < worth }
    ensures { result ≡ (if bits / worth % 2 == 1 then set else off) }
{
    if bits / worth % 2 == 1 { set } else { off }
}

// ---- the places

// A larger measure has a table longer than the 6,048 words of 96 blocks.
#[tactic(auto, unfolding(crate::specs::Small::small_ok))]
fn is_small(m: Measures) -> bool
    ensures { result ≡ small_ok m }
{
    [m.atoms, m.supercell, m.first, m.grid, m.vectors]
        .iter()
        .all(|n| *n <= 6048)
}

// The tables stand one behind the other, each as long as the measures say.
fn places_of(m: Measures, form: Form) -> Places
    requires { small_ok m ≡ true }
    ensures { result ≡ places_of m form }
{
    let z = sizes_of(m, form);
    let vectors = 25 + z.addresses;
    let multiplicity = vectors + z.vectors;
    let p2s = multiplicity + z.multiplicity;
    let s2p = p2s + m.atoms;
    let masses = s2p + m.supercell;
    let bands = masses + m.atoms;
    let frequencies = bands + m.first;
    let eigenvectors = frequencies + z.frequencies;
    let shortest = eigenvectors + z.eigenvectors;
    let nonzero = shortest + z.shortest;
    let flags = nonzero + z.nonzero;
    let constants = flags + z.slots;
    let first = constants + z.constants;
    let second = first + z.slots;
    Places {
        vectors,
        multiplicity,
        p2s,
        s2p,
        masses,
        bands,
        frequencies,
        eigenvectors,
        shortest,
        nonzero,
        flags,
        constants,
        first,
        second,
        end: second + z.slots,
    }
}

// ---- number 12

// The blocks are just those needed, W is small enough, the flag tables hold bytes, and zeros follow the last table.
fn words_match(words: &[u64], m: Measures, form: Form, p: Places) -> bool
    requires { (length words.now ≤ most_words) × (small_ok m ≡ true) × (p ≡ places_of m form) }
    ensures { result ≡ words_match words.now m p }
{
    if words.len() != 63 * p.end.div_ceil(63) {
        return false;
    }
    (work_length(m.atoms, m.supercell) <= 6144)
        & all_below(256, &words[p.shortest..p.constants])
        & all_below(1, &words[p.end..])
}

// The heading of a file of these words, each test of number 12 made before the next step rests on it.
pub fn heading_of(words: &[u64]) -> Result<Heading, Refusal>
    requires { (63 ≤ length words.now) × (length words.now ≤ most_words) }
    ensures { result ≡ read_of words.now }
{
    let edition = words[0];
    // No From leads from u64 to usize; the check proves that `as` loses nothing.
    let m = Measures {
        atoms: words[1] as usize,
        supercell: words[2] as usize,
        first: words[3] as usize,
        grid: words[4] as usize,
        vectors: words[5] as usize,
    };
    let bits = words[6];
    require((edition == 1) & (bits < 8) & is_small(m), Refusal::Heading)?;
    let form = choice(bits, 1, Form::Compact, Form::Full);
    let p = places_of(m, form);
    require(words_match(words, m, form, p), Refusal::Heading)?;
    Ok(Heading {
        measures: m,
        form,
        anchoring: choice(bits, 2, Anchoring::Averaged, Anchoring::Plain),
        symmetry: choice(bits, 4, Symmetry::Symmetrized, Symmetry::Off),
        places: p,
    })
}
