ghost use Rattle.std.specs.Prelude.{◌≡◌, ◌++◌, ◌+◌, ◌≤◌, length, drop};
ghost use Rattle.frame.specs.Frame.{data_limit, header, header_of, frame_length, frame_of};
ghost use Rattle.lent.specs.Written.{write_answered, write_left};
ghost use Rattle.fields.specs.Raw.{raw_rules};

use crate::fields::Fields;
use frame::direction::Direction;
use frame::reader::Reader;
use lent::written::lacks_room;
use refusals::refusal::Refusal;

// Writes a frame of any zone, command and answer code into the rest of the buffer from a place: 3
// for data over 255, then 9 where there is no room, and then the buffer is as it was. A command has
// no answer code, so none is written.
#[tactic(auto, unfolding(lent::specs::Written::write_answered, lent::specs::Written::write_left), using(frame::proofs::Header::frame_length_lem, lent::proofs::Room::room_place, lent::proofs::Room::room_within, lent::proofs::Tail::tail_placed, lent::proofs::Writes::write_nine, lent::proofs::Writes::write_there))]
pub fn write_raw(
    direction: Direction,
    fields: Fields,
    body: &[u8],
    buf: &mut [u8],
    at: usize,
) -> Result<usize, Refusal>
    ensures answers { result ≡ write_answered (raw_rules body.now) buf.old at (frame_of direction fields.zone fields.command fields.answer body.now) }
    ensures leaves { buf.new ≡ write_left (raw_rules body.now) buf.old at (frame_of direction fields.zone fields.command fields.answer body.now) }
{
    let count = body.len();
    if count > usize::from(Reader::DATA_LIMIT) {
        return Err(Refusal::WrongLength);
    }
    let length = usize::from(Reader::header(direction)) + count + 1;
    if lacks_room(buf.len(), at, length) {
        return Err(Refusal::NoRoom);
    }
    put_frame(direction, fields, body, &mut buf[at..]);
    Ok(length)
}

// The frame at the head of the tail that it is lent.
#[tactic(auto, unfolding(frame::specs::Frame::frame_of), using(frame::proofs::Header::header_length, lent::proofs::Tail::mid_placed, crate::proofs::Put::frame_done_lem))]
fn put_frame(direction: Direction, fields: Fields, body: &[u8], tail: &mut [u8])
    requires { (length body.now ≤ data_limit) × (frame_length direction (length body.now) ≤ length tail.old) }
    ensures { tail.new ≡ frame_of direction fields.zone fields.command fields.answer body.now ++ drop (frame_length direction (length body.now)) tail.old }
{
    put_header(direction, fields, body.len() as u8, tail);
    let header = usize::from(Reader::header(direction));
    let end = header + body.len();
    tail[header..end].copy_from_slice(body);
    tail[end] = Reader::ENDS;
}

// The header at the head of the tail.
fn put_header(direction: Direction, fields: Fields, count: u8, tail: &mut [u8])
    requires { header direction ≤ length tail.old }
    ensures { tail.new ≡ header_of direction fields.zone fields.command fields.answer count ++ drop (header direction) tail.old }
{
    tail[0] = Reader::OPENS;
    tail[1] = fields.zone;
    tail[2] = fields.command;
    match direction {
        Direction::Command => tail[3] = count,
        Direction::Answer => {
            tail[3] = fields.answer;
            tail[4] = count;
        }
    }
}
