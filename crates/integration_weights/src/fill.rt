// The slots of one triplet: blocks of a position of the bands table, rows of a band of the second leg, in a row the bands of the third.
// Good and Finite are clauses, and no ghost fields: a shape and frequencies are made before the door's tests find them so.
ghost use Rattle.std.specs.Prelude.{◌≡◌, true, ℕ, ◌*◌, ◌<◌, ◌≤◌, length};
ghost use Rattle.phonon.specs.Number.{index, int};
ghost use Rattle.phonon.specs.Tests.{finite};
ghost use Rattle.integration_weights.specs.Weights.{flag_of};
ghost use Rattle.integration_weights.specs.Rows.{SameLength, Written, row_slot, block_slot, slot_in, Good, Finite, Value};

use crate::Shape;
use crate::shapes::{Bell, Broadening};
use phonon::Legs;
use planes::index_at;

// Of the shape's three values: since none is negative, their sum is zero exactly if all are. A flag is a byte, as document 01 has it.
fn flag_of(a: f64, b: f64, c: f64) -> u8
    requires { Value a × Value b × Value c }
    ensures { result ≡ flag_of a b c }
{
    if 0.0 < a + b + c {
        return 0;
    }
    1
}

// A row, two slots at a time: x and y are the frequencies of its bands of the first two legs, leg has those of the third.
// First, second and flags stand side by side, here and below: a struct of the three would be taken apart and made anew for each block and row, since
// the borrow check does not yet cover one that is made of parts of two fields of another.
fn row<B: Broadening>(
    of: B,
    x: f64,
    y: f64,
    leg: &[f64],
    first: &mut [f64],
    second: &mut [f64],
    flags: &mut [u8],
)
    requires { SameLength (length leg.now) (length first.old) (length second.old) (length flags.old)
        × Good (B.shape of)
        × (finite x ≡ true)
        × (finite y ≡ true)
        × Finite leg.now }
    ensures { Written (row_slot (B.shape of) x y leg.now) (length leg.now) first.new second.new flags.new }
{
    let n = leg.len();
    let u = x - y;
    let v = x + y;
    // By places: the leg and three slices cut into twos and zipped read no plainer.
    for i in 0..n / 2 {
        let k = 2 * i;
        let z = leg[k];
        let t = leg[k + 1];
        let a = of.two(u - z, u - t);
        let b = of.two(v - z, v - t);
        let c = of.two(u + z, u + t);
        // Each slice takes its two entries in turn, so that they are stored at once.
        first[k] = a[0];
        first[k + 1] = a[1];
        second[k] = b[0] - c[0];
        second[k + 1] = b[1] - c[1];
        flags[k] = flag_of(a[0], b[0], c[0]);
        flags[k + 1] = flag_of(a[1], b[1], c[1]);
    }
    if n % 2 == 1 {
        let k = n - 1;
        let z = leg[k];
        let a = of.at(u - z);
        let b = of.two(v - z, u + z);
        first[k] = a;
        second[k] = b[0] - b[1];
        flags[k] = flag_of(a, b[0], b[1]);
    }
}

// Of a Gaussian two exponentials are worked side by side.
fn fill_row(
    s: Shape,
    x: f64,
    y: f64,
    leg: &[f64],
    first: &mut [f64],
    second: &mut [f64],
    flags: &mut [u8],
)
    requires { SameLength (length leg.now) (length first.old) (length second.old) (length flags.old)
        × Good s
        × (finite x ≡ true)
        × (finite y ≡ true)
        × Finite leg.now }
    ensures { Written (row_slot s x y leg.now) (length leg.now) first.new second.new flags.new }
{
    match s {
        Shape::Gaussian(width) => row(Bell { width }, x, y, leg, first, second, flags),
        _ => row(s, x, y, leg, first, second, flags),
    }
}

// The block of one first band, of frequency x: as many rows as leg1 has bands.
fn fill_block(
    s: Shape,
    x: f64,
    leg1: &[f64],
    leg2: &[f64],
    first: &mut [f64],
    second: &mut [f64],
    flags: &mut [u8],
)
    requires { SameLength (length leg1.now * length leg2.now) (length first.old) (length second.old) (length flags.old)
        × Good s
        × (finite x ≡ true)
        × Finite leg1.now
        × Finite leg2.now }
    ensures { Written (block_slot s x leg1.now leg2.now) (length leg1.now * length leg2.now) first.new second.new flags.new }
{
    let n = leg2.len();
    // By places, as the blocks below: three chunks_exact_mut zipped with the bands are no plainer, and ask for rows that are not empty.
    for j in 0..leg1.len() {
        let from = j * n;
        let to = from + n;
        fill_row(
            s,
            x,
            leg1[j],
            leg2,
            &mut first[from..to],
            &mut second[from..to],
            &mut flags[from..to],
        );
    }
}

// All slots: legs has the frequencies at the triplet's points.
pub fn fill_weights(
    s: Shape,
    bands: &[i64],
    legs: Legs<&[f64]>,
    first: &mut [f64],
    second: &mut [f64],
    flags: &mut [u8],
)
    requires { (length legs.leg1.now ≤ 3000)
        × (length legs.leg2.now ≤ 3000)
        × ((b : ℕ) → b < length bands.now → index (int bands.now b) < length legs.leg0.now)
        × SameLength (length bands.now * (length legs.leg1.now * length legs.leg2.now)) (length first.old) (length second.old) (length flags.old)
        × Good s
        × Finite legs.leg0.now
        × Finite legs.leg1.now
        × Finite legs.leg2.now }
    ensures { Written (slot_in s bands.now legs.entry.leg0.now legs.entry.leg1.now legs.entry.leg2.now)
        (length bands.now * (length legs.entry.leg1.now * length legs.entry.leg2.now)) first.new second.new flags.new }
{
    let area = legs.leg1.len() * legs.leg2.len();
    for b in 0..bands.len() {
        let x = legs.leg0[index_at(bands, b)];
        let from = b * area;
        let to = from + area;
        fill_block(
            s,
            x,
            legs.leg1,
            legs.leg2,
            &mut first[from..to],
            &mut second[from..to],
            &mut flags[from..to],
        );
    }
}
