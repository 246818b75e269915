// The program's arguments, the files that they name, and how a refusal is said. `run` has the same file: a public
// function could promise nothing of what is read, and none is public on safety alone (document 01; docs/DECISIONS.md,
// How the crates are cut).
ghost use Rattle.std.specs.Prelude.{◌≤◌, IfOk, length};

use refusals::refusal::{Fault, Refusal};
use std::env::FillError;
use std::io::{Read, Stderr};
use std::rt::{Env, Files};
use std::{fs, io, str};

// More bytes than any sheet file or capture has that is accepted.
pub(crate) const LONG: usize = 65536;
// More bytes than any path has that can be opened.
const PATH: usize = 4096;

// How many arguments there are, the program's name the first; of more than a limit, the limit.
pub(crate) fn count(rt: &impl Env, limit: usize) -> usize {
    (0..limit)
        .find(|&place| matches!(rt.arg(place, &mut []), Err(FillError::NotPresent)))
        .unwrap_or(limit)
}

// The first argument's letter, where it is one letter.
pub(crate) fn letter(rt: &impl Env) -> Option<u8> {
    let mut letter = [0];
    match rt.arg(1, &mut letter) {
        Ok(1) => Some(letter[0]),
        _ => None,
    }
}

// The bytes of the file whose path is an argument, in a lent buffer: to the file's end, or as many as there is room
// for. None where it can't be read, and then it says so in the program's name.
pub(crate) fn read_file<'a>(
    rt: &(impl Env + Files),
    err: Stderr,
    name: &[u8],
    place: usize,
    file: &'a mut [u8],
) -> io::Result<Option<&'a [u8]>> {
    let mut word = [0u8; PATH];
    let path = argument(rt, place, &mut word);
    let Some(mut opened) = open_read(rt, path) else {
        complain(err, name, b": can't open ", path)?;
        return Ok(None);
    };
    let Ok(length) = read_all(&mut opened, file) else {
        complain(err, name, b": can't read ", path)?;
        return Ok(None);
    };
    Ok(Some(&file[..length]))
}

// An argument, in a lent buffer: no bytes where it is not there or has no room.
fn argument<'a>(rt: &impl Env, place: usize, word: &'a mut [u8]) -> &'a [u8] {
    let count = rt.arg(place, word).unwrap_or(0);
    &word[..count]
}

// The file at a path, which std takes as text.
fn open_read<R: Files>(rt: &R, path: &[u8]) -> Option<R::File> {
    fs::open(rt, str::from_utf8(path).ok()?).ok()
}

// Reads until the buffer is full or the file ends, and answers how many bytes were read. A `while`: a read gives as
// many bytes as it likes, and without a heap there is no `read_to_end`. `listing` has it too, of its input.
fn read_all(opened: &mut impl Read, file: &mut [u8]) -> io::Result<usize>
    ensures { IfOk result (λ count. count ≤ length file.new) }
{
    let mut at = 0;
    while at < file.len() {
        match opened.read(&mut file[at..])? {
            0 => return Ok(at),
            got => at += got,
        }
    }
    Ok(at)
}

fn complain(err: Stderr, name: &[u8], words: &[u8], path: &[u8]) -> io::Result<()> {
    for part in [name, words, path, b"\n"] {
        err.write_all(part)?;
    }
    Ok(())
}

// 6, 7, 8 and 10 have a place, and 0 is one; 11 and 12 have none, and the 0 of their `Fault` is not said.
pub(crate) fn say_refused(out: &impl Print, fault: Fault) -> io::Result<()> {
    match fault.refusal {
        Refusal::TooLong | Refusal::WrongLetter => out.println(fault.refusal),
        _ => out.println(fault),
    }
}
