// Tests of single numbers and scans of tables, which the doors' refusals are made of; and groups of tests that several
// doors share.
#![tactic(auto)]

pub mod groups;
pub mod limits;
pub mod measures;
pub mod sizes;
pub mod values;
pub mod verdict;

ghost use Rattle.std.specs.Prelude.{◌≡◌, ◌+◌, ◌*◌, ◌/◌, length};
ghost use Rattle.std.specs.Float.Ieee.{lt};
ghost use Rattle.phonon.specs.Number.{f0, at, int};
ghost use Rattle.phonon.specs.Tests.{finite, sign_bit, all_finite, within, all_within, vector_range};
ghost use Rattle.phonon.specs.Refusal.{masses_ok, ranges_ok};
ghost use Rattle.checks.specs.Scan.{Passed, SumsTell, first_failing};

// By two comparisons: the library's test takes twelve instructions for an entry of a table where this takes eight.
pub fn is_finite(x: f64) -> bool
    ensures { result ≡ finite x }
{
    let top = f64::INFINITY;
    let bottom = -top;
    if bottom < x { x < top } else { false }
}

// That of a NaN counts as not set.
pub fn sign_bit(x: f64) -> bool
    ensures { result ≡ sign_bit x }
{
    !x.is_nan() && x.is_sign_negative()
}

pub fn is_within(low: i64, high: i64, x: i64) -> bool
    ensures { result ≡ within low high x }
{
    (low..=high).contains(&x)
}

// ---- scans: the place of the first entry that fails the test, if one does

// The sum of each column. It is finite only if all that it adds are.
fn column_sums<const N: usize>(rows: &[[f64; N]]) -> [f64; N]
    ensures { SumsTell rows.now N result }
{
    let mut sums = [0.0; N];
    for row in rows {
        // By places: a zip of both arrays reads no plainer.
        for t in 0..N {
            sums[t] = sums[t] + row[t];
        }
    }
    sums
}

// The entries before the answer are finite, as far as they come in sixteens. Sixteen sums take less time than a test of
// each entry; fewer would wait for one another. Neighbours stay side by side in a vector, so the last four are added first to third.
// Where the sum is not finite, it may have grown too large, and nothing is told.
fn summed_sixteens(s: &[f64]) -> usize
    ensures { Passed (λ k. finite (at s.now k)) (length s.now) result }
{
    let (rows, _) = s.as_chunks::<16>();
    let sums = column_sums(rows);
    let (quarters, _) = sums.as_chunks::<4>();
    let last = column_sums(quarters);
    if is_finite((last[0] + last[2]) + (last[1] + last[3])) {
        16 * rows.len()
    } else {
        0
    }
}

pub fn first_not_finite(s: &[f64]) -> Option<usize>
    ensures { result ≡ first_failing (λ k. finite (at s.now k)) (length s.now) }
{
    let i = summed_sixteens(s);
    let n = s[i..].iter().position(|x| !is_finite(*x))?;
    Some(i + n)
}

pub fn first_outside(low: i64, high: i64, s: &[i64]) -> Option<usize>
    ensures { result ≡ first_failing (λ k. within low high (int s.now k)) (length s.now) }
{
    s.iter().position(|x| !is_within(low, high, *x))
}

pub fn first_not_positive(s: &[f64]) -> Option<usize>
    ensures { result ≡ first_failing (λ k. lt f0 (at s.now k)) (length s.now) }
{
    s.iter().position(|x| !(0.0 < *x))
}

pub fn all_finite(s: &[f64]) -> bool
    ensures { result ≡ all_finite s.now }
{
    first_not_finite(s).is_none()
}

pub fn all_within(low: i64, high: i64, s: &[i64]) -> bool
    ensures { result ≡ all_within low high s.now }
{
    first_outside(low, high, s).is_none()
}

pub fn all_positive(s: &[f64]) -> bool
    ensures { result ≡ masses_ok s.now }
{
    first_not_positive(s).is_none()
}

// ---- the multiplicity table: row j is a supercell atom, column i an atom of the primitive cell, and entry
// n = j * columns + i has its count at 2 * n and its start behind it

#[tactic(auto, using(crate::proofs::RangeLaws::no_count))]
fn vector_range(vectors: usize, count: i64, start: i64) -> bool
    ensures { result ≡ vector_range vectors count start }
{
    if count < 1 {
        return false;
    }
    if start < 0 {
        return false;
    }
    let n = planes::index_of(count);
    let first = planes::index_of(start);
    if vectors < n {
        return false;
    }
    first <= vectors - n
}

// The first entry whose range lies outside the vectors, of a table of so many rows and columns. By two loops and a label,
// and not by `position`: document 01 names this form for the scan that stops out of both its loops.
pub fn first_bad_entry(table: &[i64], rows: usize, columns: usize, vectors: usize) -> Option<usize>
    requires { length table.now / 2 ≡ rows * columns }
    ensures { result ≡ first_failing
        (λ n. vector_range vectors (int table.now (2 * n)) (int table.now (2 * n + 1))) (length table.now / 2) }
{
    let mut found = None;
    'rows: for j in 0..rows {
        for i in 0..columns {
            let n = j * columns + i;
            let count = table[2 * n];
            let start = table[2 * n + 1];
            if !vector_range(vectors, count, start) {
                found = Some(n);
                break 'rows;
            }
        }
    }
    found
}

// The same of a table of any form: each entry is a row.
pub fn first_bad_range(table: &[i64], vectors: usize) -> Option<usize>
    ensures { result ≡ first_failing
        (λ n. vector_range vectors (int table.now (2 * n)) (int table.now (2 * n + 1))) (length table.now / 2) }
{
    first_bad_entry(table, table.len() / 2, 1, vectors)
}

pub fn all_ranges(table: &[i64], vectors: usize) -> bool
    ensures { result ≡ ranges_ok vectors (length table.now / 2) table.now }
{
    first_bad_range(table, vectors).is_none()
}
