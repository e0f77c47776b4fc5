// What stands where in a slice. Besides, what kernels and tests share: indices, parts, W and the orders of the legs.
#![tactic(auto)]

ghost use Rattle.std.specs.Prelude.{◌≡◌, [], ◌+◌, ◌*◌, ◌<◌, ◌≤◌, length, get_or, take, drop};
ghost use Rattle.phonon.specs.Number.{index, int};
ghost use Rattle.phonon.specs.Sets.{part};
ghost use Rattle.phonon.specs.Limits.{work_length};
ghost use Rattle.phonon.specs.Interaction.{orders};
ghost use Rattle.planes.specs.Split.{split, put_split};

use phonon::Complex;

// ---- complex numbers in two planes: the real part of number k at off + k, the imaginary part at off + d + k

pub fn get_split(x: &[f64], off: usize, d: usize, k: usize) -> Complex
    requires { off + d + k < length x.now }
    ensures { result ≡ split x.now off d k }
{
    Complex {
        re: x[off + k],
        im: x[off + d + k],
    }
}

pub fn put_split(w: &mut [f64], off: usize, d: usize, k: usize, z: Complex)
    requires { off + d + k < length w.old }
    ensures { w.new ≡ put_split w.old off d k z }
{
    w[off + k] = z.re;
    w[off + d + k] = z.im;
}

// ---- indices and parts

// A signed number as an index. A negative one, which no accepted set has, gives 0.
pub fn index_of(x: i64) -> usize
    ensures { result ≡ index x }
{
    usize::try_from(x).unwrap_or(0)
}

// Entry n of a table, as an index.
pub fn index_at(table: &[i64], n: usize) -> usize
    requires { n < length table.now }
    ensures { result ≡ index (int table.now n) }
{
    index_of(table[n])
}

// N numbers from place i on, as an array.
pub fn array_at<const N: usize>(s: &[i64], i: usize) -> [i64; N]
    requires { i + N ≤ length s.now }
    ensures { result ≡ take N (drop i s.now) }
{
    <[i64; N]>::try_from(&s[i..i + N]).unwrap()
}

// Part g of a slice that is cut into parts of n entries: the caller's own stretch, uncopied.
pub fn part_of<T>(s: &[T], g: usize, n: usize) -> &[T]
    requires { (g + 1) * n ≤ length s.now }
    ensures { (result.now ≡ part n g s.now) × (length result.now ≡ n) }
{
    let start = g * n;
    let end = start + n;
    &s[start..end]
}

// W, the used part of the work buffer, of np atoms and ns supercell atoms.
#[tactic(auto, unfolding(phonon::specs::Limits::work_length))]
pub fn work_length(np: usize, ns: usize) -> usize
    requires { (np ≤ 65536) × (ns ≤ 65536) }
    ensures { result ≡ work_length np ns }
{
    let square = np * np;
    135 * (square * np) + 54 * square + 6 * np * ns + 8 * np
}

// ---- the orders of the legs

// Document 01's fixed table of six.
const INDEX_EXCHANGE: [[usize; 3]; 6] = [
    [0, 1, 2],
    [2, 0, 1],
    [1, 2, 0],
    [2, 1, 0],
    [0, 2, 1],
    [1, 0, 2],
];

// Order number o.
#[tactic(auto, unfolding(phonon::specs::Interaction::orders))]
pub fn order_at(o: usize) -> [usize; 3]
    requires { o < 6 }
    ensures { result ≡ get_or orders o [] }
{
    INDEX_EXCHANGE[o]
}
