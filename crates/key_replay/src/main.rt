// Answers each carton of a stream on standard input, as `key` answers a file. Of each carton stand its length, four bytes,
// little-endian, and its bytes, of which only the first 49,153 matter and are sent.
#![tactic(auto)]

use answer::{MOST_INPUT, Text, put_answer};
use std::io::{ErrorKind, Read, Write};
use std::{array, io};

// Reads one carton and writes its answer. The room for both is lent: made anew it would be filled for each carton.
fn next_carton<R: Read, W: Write>(
    from: &mut R,
    to: &mut W,
    input: &mut [u8; MOST_INPUT],
    text: &mut Text,
) -> io::Result<()> {
    let mut size = [0; 4];
    from.read_exact(&mut size)?;
    let Some(carton) = input.get_mut(..u32::from_le_bytes(size) as usize) else {
        return Err(ErrorKind::InvalidData.into());
    };
    from.read_exact(carton)?;
    put_answer(carton, text);
    to.write_all(text.as_slice())
}

// Until the stream ends; no run answers as many cartons as the loop would.
fn main(rt: HostRuntime) {
    let mut from = rt.stdin();
    let mut to = rt.stdout();
    let mut input = array::repeat::<u8, MOST_INPUT>(0);
    let mut text = Text::new();
    for _ in 0..u64::MAX {
        if next_carton(&mut from, &mut to, &mut input, &mut text).is_err() {
            break;
        }
    }
}
