// The listing program: reads a profile letter, a direction letter and a capture on standard input, and writes the
// capture's listing on standard output.
#![tactic(auto)]

ghost use Rattle.std.specs.Prelude.{◌≤◌, length, IfOk};

use lent::part::bytes_at;
use listing_code::piece::list_piece;
use listing_pieces::piece::Place;
use std::io;
use std::io::{Read, Stdin, Stdout};

// Two letters, a capture of 60,000 bytes, and one more that shows that there is too much.
const INPUT: usize = 60003;
// Room for a piece.
const PIECE: usize = 65536;

fn main(rt: HostRuntime) -> io::Result<()> {
    let mut buffer = [0u8; INPUT];
    let count = read_full(rt.stdin(), &mut buffer)?;
    list(rt.stdout(), &buffer[..count])
}

// Reads until the buffer is full or the input ends, and answers how many bytes were read. `drive` has it too, and `run`
// and `signoff`, of files: a public function could promise nothing of what is read.
fn read_full(mut from: Stdin, buffer: &mut [u8]) -> io::Result<usize>
    ensures { IfOk result (λ count. count ≤ length buffer.new) }
{
    let mut at = 0;
    // a `while`: each read gives as many bytes as it likes, and a program with no heap has no `read_to_end`
    while at < buffer.len() {
        let got = from.read(&mut buffer[at..])?;
        if got == 0 {
            return Ok(at);
        }
        at += got;
    }
    Ok(at)
}

// Piece after piece, until one has no bytes.
fn list(out: Stdout, input: &[u8]) -> io::Result<()> {
    let mut buffer = [0u8; PIECE];
    let mut place = Place::Start;
    while let Ok(piece) = list_piece(input, place, &mut buffer) {
        if piece.length == 0 {
            break;
        }
        // bytes_at and no slice: that a piece is within its buffer would need a proof here
        out.write_all(bytes_at(&buffer, 0, piece.length))?;
        place = piece.next;
    }
    Ok(())
}
