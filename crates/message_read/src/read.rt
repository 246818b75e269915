ghost use Rattle.std.specs.Prelude.{◌≡◌};
ghost use Rattle.fields.specs.Fields.{data_of};
ghost use Rattle.message.specs.Computed.{has_other_code, denied_read, message_saying, said_read};
ghost use Rattle.message.specs.Message.{read_of, frame_read, denied_in};

use fields::fields::{Fields, frame_data, frame_fields};
use frame::direction::Direction;
use frame::reader::Reader;
use judging_code::judge::judge;
use message::read::{Denial, Message, Said};
use message_content::content::content_of;
use refusals::refusal::Refusal;
use row::profile::Profile;

// Reads a message from the bytes of one whole frame.
#[tactic(auto, using(message::proofs::Readings::frame_none, message::proofs::Readings::frame_some))]
pub fn read_frame(
    profile: Profile,
    direction: Direction,
    bytes: &[u8],
) -> Option<Result<Message, Refusal>>
    ensures { result ≡ frame_read profile direction bytes.now }
{
    let fields = frame_fields(direction, bytes)?;
    Some(read_message(profile, direction, fields, frame_data(direction, bytes)))
}

// Reads a message from what a frame brings. The answer code of a command is not looked at. To be put into its callers:
// one that gives profile, direction, zone and command as they stand has most of it worked out by the compiler.
#[inline]
#[tactic(auto, using(message::proofs::Readings::read_other, message::proofs::Readings::read_refused, message::proofs::Readings::read_says))]
pub fn read_message(
    profile: Profile,
    direction: Direction,
    fields: Fields,
    body: &[u8],
) -> Result<Message, Refusal>
    ensures { result ≡ read_of profile direction fields.zone fields.command fields.answer body.now }
{
    if has_other_code(direction, fields.answer) {
        return read_denied(fields, body);
    }
    let said = read_said(profile, direction, fields, body)?;
    Ok(message_of(direction, said))
}

// The data of the denied message that the bytes of a frame are, as they came: a part of the bytes lent. Other
// messages have theirs in their content.
pub fn denied_data(profile: Profile, direction: Direction, bytes: &[u8]) -> &[u8]
    ensures { result.now ≡ denied_in (frame_read profile direction bytes.now) (data_of direction bytes.now) }
{
    match read_frame(profile, direction, bytes) {
        Some(Ok(Message::Denied(_))) => frame_data(direction, bytes),
        _ => &bytes[..0],
    }
}

// Whether an answer has a code other than 00; a command has none.
fn has_other_code(direction: Direction, answer: u8) -> bool
    ensures { result ≡ has_other_code direction answer }
{
    match direction {
        Direction::Command => false,
        Direction::Answer => answer != 0x00,
    }
}

// An answer whose code is not 00: 5 where it is not 82 to 86 either; denied data over 255 are 3.
fn read_denied(fields: Fields, body: &[u8]) -> Result<Message, Refusal>
    ensures { result ≡ denied_read fields.zone fields.command fields.answer body.now }
{
    // message_write tests it too: a range, which would be a public function more to share
    if !matches!(fields.answer, 0x82..=0x86) {
        return Err(Refusal::WrongAnswer);
    }
    if body.len() > usize::from(Reader::DATA_LIMIT) {
        return Err(Refusal::WrongLength);
    }
    Ok(Message::Denied(Denial {
        zone: fields.zone,
        command: fields.command,
        answer: fields.answer,
    }))
}

// The message that says it: a command, or a status.
fn message_of(direction: Direction, said: Said) -> Message
    ensures { result ≡ message_saying direction said }
{
    match direction {
        Direction::Command => Message::Command(said),
        Direction::Answer => Message::Status(said),
    }
}

// What a command or a status says, once it is judged.
fn read_said(
    profile: Profile,
    direction: Direction,
    fields: Fields,
    body: &[u8],
) -> Result<Said, Refusal>
    ensures { result ≡ said_read profile direction fields.zone fields.command body.now }
{
    let Fields { zone, command, .. } = fields;
    let row = judge(profile, direction, zone, command, body)?;
    Ok(Said {
        zone,
        command,
        content: content_of(direction, row, body),
    })
}
