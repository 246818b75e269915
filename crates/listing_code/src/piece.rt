// The listing of a capture, given out in pieces: whole lines as long as there is room for any line, and the place to go
// on at.
ghost use Rattle.std.specs.Prelude.{◌≡◌, ◌++◌, ◌+◌, ◌^◌, ◌≤◌, ◌<◌, length};
ghost use Rattle.frame.specs.Capture.{events_from, totals_of};
ghost use Rattle.lent.specs.Placed.{placed};
ghost use Rattle.characters.specs.Decimal.{decimal};
ghost use Rattle.listing_text.specs.Listing.{total_line};
ghost use Rattle.listing_pieces.specs.Pieces.{line_limit, coming_events, coming_from, coming_refused, filled, text_as, piece_answered, piece_left};
ghost use Rattle.listing_pieces.specs.Computed.{Put, first_text, first_next};
ghost use Rattle.listing_pieces.specs.declared.piece.Place.TheVariants as place;

use crate::event::Listed;
use crate::put::{put_bytes, put_number};
use frame::capture::Totals;
use frame_capture::capture::{capture_totals, next_event};
use listing_pieces::piece::{Piece, Place};
use listing_text::asked::what_is_asked;
use refusals::refusal::Refusal;

// Room for any line of a listing.
pub const LINE_LIMIT: usize = 64;

// Gives out the listing of an input from a place on, at the head of the buffer: lines as long as 64 bytes are left
// for one. Begin at the start and go on at the place that is answered; a piece of no bytes is the end. 9 for a
// buffer of less than 64 bytes, and then it is as it was.
pub fn list_piece(input: &[u8], place: Place, buf: &mut [u8]) -> Result<Piece, Refusal>
    ensures answers { result ≡ piece_answered input.now place buf.old }
    ensures leaves { buf.new ≡ piece_left input.now place buf.old }
{
    if buf.len() < LINE_LIMIT {
        return Err(Refusal::NoRoom);
    }
    Ok(match what_is_asked(input) {
        Ok((profile, direction)) => {
            let listed = Listed {
                profile,
                direction,
                capture: &input[2..],
            };
            listed.lines(place, buf)
        }
        Err(refusal) => list_refusal(refusal, place, buf),
    })
}

// Refused input has one line.
#[tactic(auto, unfolding(characters::specs::Letters::letters, listing_text::specs::Listing::text_line, listing_pieces::specs::Pieces::filled))]
fn list_refusal(refusal: Refusal, place: Place, buf: &mut [u8]) -> Piece
    requires { line_limit ≤ length buf.old }
    ensures answers { result ≡ text_as (filled (length buf.old) place (coming_refused refusal place)) }
    ensures leaves { buf.new ≡ placed buf.old 0 (filled (length buf.old) place (coming_refused refusal place)).text }
{
    match place {
        Place::Start => {
            let first = put_counted(b"refused ", usize::from(refusal.number()), buf, 0);
            let end = put_bytes(buf, first, b"\n");
            Piece {
                length: end,
                next: Place::End,
            }
        }
        next => Piece { length: 0, next },
    }
}

impl Listed<'_> {
    // Line after line: a `while`, since a line has as many bytes as its texts.
    #[tactic(auto, using(listing_pieces::proofs::Pieces::filled_full, listing_pieces::proofs::Pieces::filled_end, listing_pieces::proofs::Pieces::fewer, listing_pieces::proofs::Pieces::Filling, listing_pieces::proofs::Pieces::begun, listing_pieces::proofs::Pieces::ended, listing_pieces::proofs::Pieces::more))]
    fn lines(&self, place: Place, buf: &mut [u8]) -> Piece
        requires { line_limit ≤ length buf.old }
        ensures answers { result ≡ text_as (filled (length buf.old) place (coming_from self.now.profile self.now.direction self.now.capture.now place)) }
        ensures leaves { buf.new ≡ placed buf.old 0 (filled (length buf.old) place (coming_from self.now.profile self.now.direction self.now.capture.now place)).text }
    {
        let mut piece = Piece {
            length: 0,
            next: place,
        };
        while buf.len() - piece.length >= LINE_LIMIT && piece.next != Place::End {
            piece = self.put_next(piece, buf);
        }
        piece
    }

    // The piece with the next line put behind it: the heading, an event, or the totals.
    #[tactic(auto, unfolding(characters::specs::Letters::letters))]
    fn put_next(&self, piece: Piece, buf: &mut [u8]) -> Piece
        requires { piece.length + line_limit ≤ length buf.old }
        ensures puts { Put line_limit buf.old piece.length (first_text (coming_from self.now.profile self.now.direction self.now.capture.now piece.next)) buf.new result.length }
        ensures next { result.next ≡ first_next piece.next (coming_from self.now.profile self.now.direction self.now.capture.now piece.next) }
    {
        match piece.next {
            Place::Start => Piece {
                length: put_bytes(
                    buf,
                    piece.length,
                    b"at length event zone code answer value\n",
                ),
                next: Place::Event(0),
            },
            Place::Event(from) => self.put_from(from, buf, piece.length),
            Place::End => piece,
        }
    }

    // The event that starts at a place, or the totals where there is none.
    #[tactic(auto, unfolding(listing_pieces::specs::Pieces::coming_events))]
    fn put_from(&self, from: usize, buf: &mut [u8], at: usize) -> Piece
        requires { at + line_limit ≤ length buf.old }
        ensures puts { Put line_limit buf.old at (first_text (coming_events self.now.profile self.now.direction self.now.capture.now (events_from self.now.direction self.now.capture.now from))) buf.new result.length }
        ensures next { result.next ≡ first_next (place.Event from) (coming_events self.now.profile self.now.direction self.now.capture.now (events_from self.now.direction self.now.capture.now from)) }
    {
        match next_event(self.direction, self.capture, from) {
            Some(event) => Piece {
                length: self.put_event(event, buf, at),
                next: Place::Event(event.at + event.length),
            },
            None => Piece {
                length: self.put_totals(buf, at),
                next: Place::End,
            },
        }
    }

    #[tactic(auto, using(listing_pieces::proofs::Counts::counts, listing_pieces::proofs::Counts::totals_small, listing_pieces::proofs::Puts::wider, listing_pieces::proofs::Puts::said))]
    fn put_totals(&self, buf: &mut [u8], at: usize) -> usize
        requires { at + line_limit ≤ length buf.old }
        ensures { Put line_limit buf.old at (total_line (length self.now.capture.now) (totals_of self.now.direction self.now.capture.now)) buf.new result }
    {
        let totals = capture_totals(self.direction, self.capture).unwrap();
        put_total_line(self.capture.len(), totals, buf, at)
    }
}

fn put_total_line(count: usize, totals: Totals, buf: &mut [u8], at: usize) -> usize
    requires { (at + 63 ≤ length buf.old) × (count < 2 ^ 16) × (totals.frame < 2 ^ 16) × (totals.broken < 2 ^ 16) × (totals.noise < 2 ^ 16) × (totals.pending < 2 ^ 16) }
    ensures { Put 63 buf.old at (total_line count totals) buf.new result }
{
    let first = put_counted(b"total ", count, buf, at);
    let second = put_counted(b" frame ", totals.frame, buf, first);
    let third = put_counted(b" broken ", totals.broken, buf, second);
    let fourth = put_counted(b" noise ", totals.noise, buf, third);
    let fifth = put_counted(b" pending ", totals.pending, buf, fourth);
    put_bytes(buf, fifth, b"\n")
}

// A word, and a number of at most five digits.
fn put_counted(word: &[u8], count: usize, buf: &mut [u8], at: usize) -> usize
    requires { (count < 2 ^ 16) × (at + (length word.now + 5) ≤ length buf.old) }
    ensures { Put (length word.now + 5) buf.old at (word.now ++ decimal count) buf.new result }
{
    let number = put_bytes(buf, at, word);
    put_number(buf, number, count as u16)
}
