// What is printed, on standard output.
use characters::hex::hex_byte;
use decimal::decimal::write_integer;
use lent::part::bytes_at;
use refusals::refusal::{Fault, Refusal};
use std::io;
use std::io::{Stdout, Write};

// Where it is printed: each part is written at once.
pub(crate) type Output = Stdout;

// Why an operation ends before it said all: a refusal, which its line then says, or a write that failed.
#[derive(Drop)]
pub(crate) enum Stop {
    Refused(Refusal),
    AtFault(Fault),
    Failed(io::Error),
}

impl From<Refusal> for Stop {
    fn from(refusal: Refusal) -> Stop {
        Stop::Refused(refusal)
    }
}

impl From<Fault> for Stop {
    fn from(fault: Fault) -> Stop {
        Stop::AtFault(fault)
    }
}

impl From<io::Error> for Stop {
    fn from(error: io::Error) -> Stop {
        Stop::Failed(error)
    }
}

// Ends an operation's line, with its refusal where there is one.
pub(crate) fn end_line(out: &mut Output, said: Result<(), Stop>) -> io::Result<()> {
    match said {
        Ok(()) => writeln!(out),
        Err(Stop::Refused(refusal)) => writeln!(out, "{refusal}"),
        Err(Stop::AtFault(fault)) => writeln!(out, "{fault}"),
        Err(Stop::Failed(error)) => Err(error),
    }
}

// A space before all but the first.
pub(crate) fn say_between(out: &mut Output, place: usize) -> io::Result<()> {
    if place == 0 {
        Ok(())
    } else {
        out.write_all(b" ")
    }
}

// A byte as hex digits. By one write: the library's `{:02X}` takes two for a byte below 10.
pub(crate) fn say_byte(out: &mut Output, byte: u8) -> io::Result<()> {
    out.write_all(&hex_byte(byte))
}

// A space, and a byte as hex digits.
pub(crate) fn say_byte_after(out: &mut Output, byte: u8) -> io::Result<()> {
    let [first, second] = hex_byte(byte);
    out.write_all(&[b' ', first, second])
}

// A number that may be below zero: five digits at most, and a sign.
pub(crate) fn say_integer(out: &mut Output, number: i16) -> io::Result<()> {
    let mut digits = [0u8; 6];
    let count = write_integer(&mut digits, 0, i32::from(number)).unwrap_or(0);
    out.write_all(bytes_at(&digits, 0, count))
}

// Bytes behind all else that is said.
pub(crate) fn say_buffer(out: &mut Output, bytes: &[u8]) -> io::Result<()> {
    out.write_all(b" : ")?;
    say_bytes(out, bytes)
}

// Bytes whose digits are written at once.
const GATHERED: usize = 2048;

// Bytes as hex digits, run together; a dash for none.
pub(crate) fn say_bytes(out: &mut Output, bytes: &[u8]) -> io::Result<()> {
    if bytes.is_empty() {
        return out.write_all(b"-");
    }
    let mut digits = [[0u8; 2]; GATHERED];
    for part in bytes.chunks(GATHERED) {
        for (byte, pair) in part.iter().zip(digits.iter_mut()) {
            *pair = hex_byte(*byte);
        }
        // chunks gives no more than GATHERED bytes, but the proof of a loop does not know it
        let count = part.len().min(GATHERED);
        out.write_all(digits[..count].as_flattened())?;
    }
    Ok(())
}
