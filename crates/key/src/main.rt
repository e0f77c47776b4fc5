// Reads a carton file from standard input and prints its strengths and totals, or `refused` and a number.
#![tactic(auto)]

ghost use Rattle.std.specs.Prelude.{◌≤◌, length};

use answer::{MOST_INPUT, Text, put_answer};
use std::array;
use std::io::{Read, Write};

// Reads until the buffer is full, the input ends or a read fails; how many bytes stand at the buffer's start. Each read has all the room that is
// left, and an interrupted one ends the input: the library's copy would read by 8,192 bytes, and try it again.
fn read_full<R: Read>(from: &mut R, buf: &mut [u8]) -> usize
    ensures { result ≤ length buf.new }
{
    let mut done = 0;
    while done < buf.len() {
        let n = from.read(&mut buf[done..]).unwrap_or(0);
        if n == 0 {
            break;
        }
        done += n;
    }
    done
}

// A key that could not be written whole, as to a full disk, is told of on standard error.
fn main(rt: HostRuntime) {
    let mut input = array::repeat::<u8, MOST_INPUT>(0);
    let n = read_full(&mut rt.stdin(), &mut input);
    let mut text = Text::new();
    put_answer(&input[..n], &mut text);
    if rt.stdout().write_all(text.as_slice()).is_err() {
        let _ = rt
            .stderr()
            .write_all(b"key: the answer could not be written whole\n");
    }
}
