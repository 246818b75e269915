ghost use Rattle.std.specs.Prelude.{◌≡◌, ◌≤◌, length};
ghost use Rattle.frame.specs.Frame.{header};
ghost use Rattle.fields.specs.Fields.{is_frame, answer_in, fields_of, data_of};

use frame::direction::Direction;
use frame::reader::Reader;

// What a frame brings beside its data. A command has no answer code: 0 stands for it, as answer_in has it. No Option:
// the definitions of messages take an answer code in either direction, and look at it in answers alone.
#[derive(Clone, Copy, Debug, PartialEq, Eq)]
pub struct Fields {
    pub zone: u8,
    pub command: u8,
    pub answer: u8,
}

// The zone, command and answer code of the bytes of one whole frame; other bytes have none.
#[tactic(auto, using(frame::proofs::Header::header_least, crate::proofs::Whole::whole_long))]
pub fn frame_fields(direction: Direction, bytes: &[u8]) -> Option<Fields>
    ensures { result ≡ fields_of direction bytes.now }
{
    if !is_frame(direction, bytes) {
        return None;
    }
    Some(Fields {
        zone: bytes[1],
        command: bytes[2],
        answer: answer_code(direction, bytes),
    })
}

// The data of the bytes of one whole frame: a part of what is lent. Bytes that are no whole frame have none.
#[tactic(auto, using(frame::proofs::Header::header_least, crate::proofs::Whole::is_whole, crate::proofs::Whole::whole_long))]
pub fn frame_data(direction: Direction, bytes: &[u8]) -> &[u8]
    ensures { result.now ≡ data_of direction bytes.now }
{
    if !is_frame(direction, bytes) {
        return &bytes[..0];
    }
    let header = usize::from(Reader::header(direction));
    let end = bytes.len() - 1;
    &bytes[header..end]
}

// Whether the bytes are one whole frame: 21 first, as many as Dl says, 0D last.
#[tactic(auto, unfolding(crate::specs::Fields::is_frame))]
fn is_frame(direction: Direction, bytes: &[u8]) -> bool
    ensures { result ≡ is_frame direction bytes.now }
{
    let header = usize::from(Reader::header(direction));
    bytes.len() > header
        && bytes.len() == header + usize::from(bytes[header - 1]) + 1
        && bytes[0] == Reader::OPENS
        && bytes[bytes.len() - 1] == Reader::ENDS
}

// The answer code among the bytes of a frame; a command has none.
fn answer_code(direction: Direction, bytes: &[u8]) -> u8
    requires { header direction ≤ length bytes.now }
    ensures { result ≡ answer_in direction bytes.now }
{
    match direction {
        Direction::Command => 0,
        Direction::Answer => bytes[3],
    }
}
