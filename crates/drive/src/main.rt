// Runs the library's public functions on operations from standard input and prints what they answer; the form of the
// operations is in tests/README.md.
#![tactic(auto)]

mod arguments;
mod doors;
mod frames;
mod messages;
mod out;
mod sheets;
mod spaces;
mod texts;
mod writes;

ghost use Rattle.std.specs.Prelude.{◌≤◌, IfOk, length};

use arguments::Arguments;
use out::{Output, Stop};
use std::io;
use std::io::{Read, Stdin, Write};

// Room for a line; of a longer one the first characters are taken.
const LINE: usize = 262144;
// Room for what one read brings.
const READ: usize = 65536;

fn main(rt: HostRuntime) -> io::Result<()> {
    let mut out = rt.stdout();
    let mut line = [0u8; LINE];
    read_lines(&mut out, rt.stdin(), &mut line)
}

// Reads until the input ends; a last line may have no line feed.
fn read_lines(out: &mut Output, from: Stdin, line: &mut [u8]) -> io::Result<()> {
    let mut input = [0u8; READ];
    let mut count = 0;
    for _ in 0..u64::MAX {
        let got = match read_full(from, &mut input) {
            Ok(0) => break,
            Ok(got) => got,
            Err(error) => {
                end_line(out, &mut line[..count])?;
                return Err(error);
            }
        };
        for byte in &input[..got] {
            count = take_byte(out, *byte, line, count)?;
        }
    }
    end_line(out, &mut line[..count])
}

// Reads until the buffer is full or the input ends, and answers how many bytes were read: so a caller may write that many
// before it reads an answer, and input that ends at a terminal is asked for once more. A read that fails ends it too: its
// error is answered where nothing was read before it.
fn read_full(mut from: Stdin, buffer: &mut [u8]) -> io::Result<usize>
    ensures { IfOk result (λ count. count ≤ length buffer.new) }
{
    let mut at = 0;
    // a `while`: each read gives as many bytes as it likes, and a program with no heap has no `read_to_end`
    while at < buffer.len() {
        match from.read(&mut buffer[at..]) {
            Ok(0) => return Ok(at),
            Ok(got) => at += got,
            Err(error) => return if at == 0 { Err(error) } else { Ok(at) },
        }
    }
    Ok(at)
}

// The last line, where it has no line feed.
fn end_line(out: &mut Output, line: &mut [u8]) -> io::Result<()> {
    if line.is_empty() {
        Ok(())
    } else {
        operate(out, line)
    }
}

// One byte more, where there is room; a line feed ends the line. Answers how many characters the line then has. There
// is no heap: the line is lent, and count is how much of it is filled.
fn take_byte(out: &mut Output, byte: u8, line: &mut [u8], count: usize) -> io::Result<usize>
    requires { count ≤ length line.old }
    ensures { IfOk result (λ now. now ≤ length line.new) }
{
    if byte == b'\n' {
        operate(out, &mut line[..count])?;
        Ok(0)
    } else if count < line.len() {
        line[count] = byte;
        Ok(count + 1)
    } else {
        Ok(count)
    }
}

// One operation; a line that begins with # is none. A listing ends its last line itself.
fn operate(out: &mut Output, line: &mut [u8]) -> io::Result<()> {
    if line.starts_with(b"#") {
        return Ok(());
    }
    let end = line
        .iter()
        .position(|letter| *letter == b' ')
        .unwrap_or(line.len());
    let (word, rest) = line.split_at_mut(end);
    let arguments = Arguments::decoded(rest);
    match &*word {
        b"listing" => texts::listing(out, &arguments),
        b"pieces" => texts::pieces(out, &arguments),
        word => {
            let said = run(out, word, &arguments);
            out::end_line(out, said)
        }
    }
}

// An operation by its word.
fn run(out: &mut Output, word: &[u8], arguments: &Arguments) -> Result<(), Stop> {
    match word {
        b"feed" => frames::feed(out, arguments),
        b"parts" => frames::parts(out, arguments),
        b"events" => frames::events(out, arguments),
        b"event" => frames::event(out, arguments),
        b"totals" => frames::totals(out, arguments),
        b"fields" => frames::fields(out, arguments),
        b"part" => frames::part(out, arguments),
        b"last" => frames::last(out, arguments),
        b"frame" => messages::frame(out, arguments),
        b"read" => messages::read(out, arguments),
        b"number" => messages::number(out, arguments),
        b"code" => messages::code(out, arguments),
        b"plain" => messages::plain(out, arguments),
        b"row" => messages::row(out, arguments),
        b"legal" => messages::legal(out, arguments),
        b"all" => spaces::all(out, arguments),
        b"pairs" => spaces::pairs(out, arguments),
        b"codes" => spaces::codes(out, arguments),
        b"check" => sheets::check(out, arguments),
        b"sign" => sheets::sign(out, arguments),
        b"cell" => sheets::cell(out, arguments),
        b"doorlist" => doors::check(out, arguments),
        b"doorsign" => doors::sign(out, arguments),
        b"dooroff" => doors::sign_off(out, arguments),
        b"doorcell" => doors::cell(out, arguments),
        b"doorfeed" => doors::feed(out, arguments),
        b"write" => writes::message(out, arguments),
        b"send" => writes::fields(out, arguments),
        b"raw" => writes::raw(out, arguments),
        b"copy" => writes::file(out, arguments),
        b"run" => writes::run(out, arguments),
        b"doorfile" => writes::door_file(out, arguments),
        b"doorrun" => writes::door_run(out, arguments),
        b"decimal" => writes::decimal(out, arguments),
        b"hex" => writes::hex(out, arguments),
        _ => Ok(out.write_all(b"?")?),
    }
}
