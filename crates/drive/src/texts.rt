// The listing, whole and in pieces.
use crate::arguments::Arguments;
use crate::out::Output;
use lent::part::bytes_at;
use listing_code::piece::list_piece;
use listing_pieces::piece::Place;
use std::io;
use std::io::Write;

// More than any listing has rows.
const PIECES: u32 = 100000;

// The most that a buffer has.
const ROOM: usize = 4096;

// The listing.
pub(crate) fn listing(out: &mut Output, arguments: &Arguments) -> io::Result<()> {
    list(out, arguments.bytes(1), &mut [0; ROOM])
}

// The same through a buffer of a given length.
pub(crate) fn pieces(out: &mut Output, arguments: &Arguments) -> io::Result<()> {
    let length = arguments.number(1).min(ROOM as u64) as usize;
    list(out, arguments.bytes(2), &mut [0; ROOM][..length])
}

// All its lines, through a lent buffer. `listing` has this loop too, with room for any piece; here 9 is said.
fn list(out: &mut Output, input: &[u8], buf: &mut [u8]) -> io::Result<()> {
    let mut place = Place::Start;
    for _ in 0..PIECES {
        let piece = match list_piece(input, place, buf) {
            Ok(piece) => piece,
            Err(refusal) => return writeln!(out, "{refusal}"),
        };
        if piece.length == 0 {
            break;
        }
        // bytes_at and no slice: that a piece is within its buffer would need a proof here
        out.write_all(bytes_at(buf, 0, piece.length))?;
        place = piece.next;
    }
    Ok(())
}
