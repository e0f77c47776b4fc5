// Reads a list of arguments and answers, works each function anew, and compares bit for bit. Writes for each function how
// many lines were replayed and how many of them differ, and at the end how many lines could not be read.
//
// A line is a function's name, its argument's bits (bose_einstein has two arguments) and its answer's bits, each as 16
// hexadecimal digits, with single spaces. A line that starts with # is a comment. Every NaN is 7ff8000000000000.
#![tactic(auto)]

ghost use Rattle.std.specs.Prelude.{◌≡◌, ◌<◌, ◌≤◌, length, IfSome};

use common::bits::{bits_of, f64_of_bits};
use std::fmt;
use std::io::Read;

// The value of a hexadecimal digit. The library's from_str_radix takes capitals and a sign as well, which no line here may have.
fn digit(b: u8) -> Option<u64>
    ensures { IfSome result (λ d. d < 16) }
{
    match b {
        b'0'..=b'9' => Some((b - b'0') as u64),
        b'a'..=b'f' => Some((b - b'a' + 10) as u64),
        _ => None,
    }
}

// Sixteen digits, as a number. Each takes the place of the lowest, and the highest falls out.
fn word(digits: &[u8]) -> Option<u64> {
    if digits.len() != 16 {
        return None;
    }
    let mut w = 0u64;
    for b in digits {
        w = w % 0x1000_0000_0000_0000 * 16 + digit(*b)?;
    }
    Some(w)
}

#[derive(Clone, Copy)]
enum Function {
    Root,
    Exp,
    Sin,
    Cos,
    BoseEinstein,
}

impl fmt::Display for Function {
    fn fmt<W: fmt::Write>(&self, f: &mut fmt::Formatter<W>) -> fmt::Result {
        f.write_str(match self {
            Function::Root => "root",
            Function::Exp => "exp",
            Function::Sin => "sin",
            Function::Cos => "cos",
            Function::BoseEinstein => "bose_einstein",
        })
    }
}

// The function of a name. Display hands the same names to a formatter: without a heap, nothing holds them for a comparison.
fn named(name: &[u8]) -> Option<Function> {
    match name {
        b"root" => Some(Function::Root),
        b"exp" => Some(Function::Exp),
        b"sin" => Some(Function::Sin),
        b"cos" => Some(Function::Cos),
        b"bose_einstein" => Some(Function::BoseEinstein),
        _ => None,
    }
}

// A line's function, and whether its answer is the line's.
#[derive(Clone, Copy)]
struct Replayed {
    function: Function,
    agrees: bool,
}

// A line that is no comment, unless it cannot be read.
fn replay(line: &[u8]) -> Option<Replayed> {
    let mut words = line.split(|b| *b == b' ');
    let function = named(words.next()?)?;
    let x = f64_of_bits(word(words.next()?)?);
    let answer = match function {
        Function::Root => common::root(x),
        Function::Exp => funcs::exp(x),
        Function::Sin => funcs::sin_cos(x).sin,
        Function::Cos => funcs::sin_cos(x).cos,
        Function::BoseEinstein => funcs::bose_einstein(x, f64_of_bits(word(words.next()?)?)),
    };
    let expected = word(words.next()?)?;
    if words.next().is_some() {
        return None;
    }
    Some(Replayed {
        function,
        agrees: bits_of(answer) == expected,
    })
}

// How many lines of a function were replayed, and how many of them differ.
#[derive(Clone, Copy, Default)]
struct Count {
    all: u64,
    differ: u64,
}

#[derive(Clone, Copy, Default)]
struct Counts {
    functions: [Count; 5],
    malformed: u64,
}

fn counted(list: &[u8]) -> Counts {
    let mut counts = Counts::default();
    for ended in list.split_inclusive(|b| *b == b'\n') {
        let line = ended.strip_suffix(b"\n").unwrap_or(ended);
        if line.starts_with(b"#") {
            continue;
        }
        match replay(line) {
            Some(r) => {
                // By the function's number: a match to one count of five would say no more.
                let count = &mut counts.functions[r.function as usize];
                count.all = count.all.wrapping_add(1);
                if !r.agrees {
                    count.differ = count.differ.wrapping_add(1);
                }
            }
            None => counts.malformed = counts.malformed.wrapping_add(1),
        }
    }
    counts
}

// Reads until buf is full, the input ends or a read fails, and returns how many bytes it put at the start of buf. An interrupted read
// ends the input, where the library's copy would try it again.
fn read_full<R: Read>(input: &mut R, buf: &mut [u8]) -> usize
    ensures { result ≤ length buf.new }
{
    let mut done = 0usize;
    while done < buf.len() {
        let n = input.read(&mut buf[done..]).unwrap_or(0);
        if n == 0 {
            break;
        }
        done += n;
    }
    done
}

fn main(rt: HostRuntime) {
    // Room for the list.
    let mut input = [0u8; 98304];
    let n = read_full(&mut rt.stdin(), &mut input);
    let counts = counted(&input[..n]);
    for function in [
        Function::Root,
        Function::Exp,
        Function::Sin,
        Function::Cos,
        Function::BoseEinstein,
    ] {
        let Count { all, differ } = counts.functions[function as usize];
        let _ = println!(rt; "{function} {all} differ {differ}");
    }
    let malformed = counts.malformed;
    let _ = println!(rt; "malformed {malformed}");
}
