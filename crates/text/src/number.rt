// Words and numbers. Digits come from io: `write!` answers a Result, and no contract says that it cannot fail where there is room.
ghost use Rattle.std.specs.Prelude.{◌≡◌, ◌+◌, ◌≤◌, ◌++◌, length};
ghost use Rattle.arrayvec.specs.ArrayVec.{array_vec_len};
ghost use Rattle.text.specs.Lines.{number_then, bits_line};

use arrayvec::ArrayVec;
use common::bits::bits_of;

pub(crate) fn put<const N: usize>(text: &mut ArrayVec<u8, N>, bytes: &[u8])
    requires { array_vec_len text.old + length bytes.now ≤ N }
    ensures { text.new.items ≡ text.old.items ++ bytes.now }
{
    // There is room.
    let _ = text.try_extend_from_slice(bytes);
}

// A number in decimal, then a byte.
pub(crate) fn put_number<const N: usize>(text: &mut ArrayVec<u8, N>, n: usize, then: u8)
    requires { array_vec_len text.old + length (number_then n then) ≤ N }
    ensures { text.new.items ≡ text.old.items ++ number_then n then }
{
    let mut digits = [0; 20];
    // No From leads from usize to u64; the check proves that `as` loses nothing.
    let k = io::decimal(n as u64, &mut digits);
    put(text, &digits[..k]);
    text.push(then);
}

// The bits in 16 hexadecimal digits, and the end of the line.
pub(crate) fn put_bits<const N: usize>(text: &mut ArrayVec<u8, N>, x: f64)
    requires { array_vec_len text.old + length (bits_line x) ≤ N }
    ensures { text.new.items ≡ text.old.items ++ bits_line x }
{
    let mut digits = [0; 16];
    let k = io::hex(bits_of(x), 16, &mut digits);
    put(text, &digits[..k]);
    text.push(b'\n');
}
