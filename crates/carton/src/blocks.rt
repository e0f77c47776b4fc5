// The blocks of a carton file: little-endian numbers, and refusals 10 and 11.
ghost use Rattle.std.specs.Prelude.{◌≡◌, ◌+◌, ◌*◌, ◌≤◌, ◌<◌, length};
ghost use Rattle.carton.specs.Blocks.{four_at, eight_at, size_ok, check_of, block_ok, blocks_ok};

// The little-endian number of four bytes from byte i on. Beside eight_at: a trait with u32 and u64 as its types would be longer than both.
#[tactic(auto, unfolding(crate::specs::Blocks::four_at))]
fn four_at(s: &[u8], i: usize) -> u32
    requires { i + 4 ≤ length s.now }
    ensures { result ≡ four_at s.now i }
{
    u32::from_le_bytes(<[u8; 4]>::try_from(&s[i..i + 4]).unwrap())
}

// The little-endian number of eight bytes from byte i on.
pub(crate) fn eight_at(s: &[u8], i: usize) -> u64
    requires { i + 8 ≤ length s.now }
    ensures { result ≡ eight_at s.now i }
{
    u64::from_le_bytes(<[u8; 8]>::try_from(&s[i..i + 8]).unwrap())
}

// Number 10. 49,152 bytes are 96 blocks. A bool, here and of number 11, as the tests of `checks` are: who reads the file makes a refusal of it.
#[tactic(auto, unfolding(crate::specs::Blocks::size_ok))]
pub fn size_ok(s: &[u8]) -> bool
    ensures { result ≡ size_ok s.now }
{
    let n = s.len();
    (1..=49152).contains(&n) & n.is_multiple_of(512)
}

// The check of the block from byte i on.
fn check_of(s: &[u8], i: usize) -> u64
    requires { i + 512 ≤ length s.now }
    ensures { result ≡ check_of s.now i }
{
    let sum: u64 = (0..127).map(|k| u64::from(four_at(s, i + 4 * k))).sum();
    sum % 4294967296
}

// The number and the check of block b.
#[tactic(auto, unfolding(crate::specs::Blocks::block_ok))]
fn block_ok(s: &[u8], b: usize) -> bool
    requires { 512 * b + 512 ≤ length s.now }
    ensures { result ≡ block_ok s.now b }
{
    let i = 512 * b;
    let number = u64::from(four_at(s, i + 504));
    let check = u64::from(four_at(s, i + 508));
    // No From leads from usize to u64; the check proves that `as` loses nothing.
    (number == b as u64) & (check == check_of(s, i))
}

// Number 11.
pub fn blocks_ok(s: &[u8]) -> bool
    ensures { result ≡ blocks_ok s.now }
{
    (0..s.len() / 512).all(|b| block_ok(s, b))
}
