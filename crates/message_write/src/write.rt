ghost use Rattle.std.specs.Prelude.{◌≡◌, [], ◌∷◌};
ghost use Rattle.fields.specs.Raw.{too_long, raw_rules};
ghost use Rattle.frame.specs.Frame.{frame_of};
ghost use Rattle.frame.specs.declared.direction.Direction.TheVariants as direction;
ghost use Rattle.lent.specs.Written.{write_answered, write_left};
ghost use Rattle.message.specs.Content.{encoded_data};
ghost use Rattle.message.specs.Message.{read_rules};
ghost use Rattle.message.specs.Write.{said_rules, said_data, not_denied, write_rules, message_frame, fields_frame};

use fields::fields::Fields;
use fields::raw::write_raw;
use frame::direction::Direction;
use judging_code::judge::{judge_row, length_fits};
use message::content::Encoded;
use message::read::{Denial, Message, Said};
use message_content::content::{encode, form_refusal, is_form, size_of};
use message_read::read::read_message;
use refusals::refusal::Refusal;
use row::profile::Profile;

// Writes a message into the rest of the buffer from a place: the checks of reading the data that it would
// write, 4 also where the row says something else by them or a number has no code, then 9. Denied: only 5,
// then 3, then 9; the profile is not asked. `body` are the data of a denied message; the other messages have
// theirs in their content.
pub fn write_message(
    profile: Profile,
    buf: &mut [u8],
    at: usize,
    message: Message,
    body: &[u8],
) -> Result<usize, Refusal>
    ensures answers { result ≡ write_answered (write_rules profile message body.now) buf.old at (message_frame profile message body.now) }
    ensures leaves { buf.new ≡ write_left (write_rules profile message body.now) buf.old at (message_frame profile message body.now) }
{
    match message {
        Message::Command(said) => write_said(profile, Direction::Command, said, buf, at),
        Message::Status(said) => write_said(profile, Direction::Answer, said, buf, at),
        Message::Denied(denial) => write_denied(denial, body, buf, at),
    }
}

// Writes fields and data as the message that they are, with the numbers that reading them would give, then 9:
// minus zero is written as 00. The answer code of a command is not looked at.
#[tactic(auto, using(message::proofs::Writes::fields_refused, message::proofs::Writes::fields_message, message::proofs::Writes::fields_refused_left, message::proofs::Writes::fields_message_left))]
pub fn write_fields(
    profile: Profile,
    direction: Direction,
    fields: Fields,
    body: &[u8],
    buf: &mut [u8],
    at: usize,
) -> Result<usize, Refusal>
    ensures answers { result ≡ write_answered (read_rules profile direction fields.zone fields.command fields.answer body.now) buf.old at (fields_frame profile direction fields.zone fields.command fields.answer body.now) }
    ensures leaves { buf.new ≡ write_left (read_rules profile direction fields.zone fields.command fields.answer body.now) buf.old at (fields_frame profile direction fields.zone fields.command fields.answer body.now) }
{
    let message = read_message(profile, direction, fields, body)?;
    write_message(profile, buf, at, message, body)
}

// Only 5, then 3 for data over 255, then 9: what a unit denies is not checked.
#[tactic(auto, unfolding(lent::specs::Written::write_answered, lent::specs::Written::write_left))]
fn write_denied(denial: Denial, body: &[u8], buf: &mut [u8], at: usize) -> Result<usize, Refusal>
    ensures answers { result ≡ write_answered (not_denied denial.answer ∷ too_long body.now ∷ []) buf.old at (frame_of direction.Answer denial.zone denial.command denial.answer body.now) }
    ensures leaves { buf.new ≡ write_left (not_denied denial.answer ∷ too_long body.now ∷ []) buf.old at (frame_of direction.Answer denial.zone denial.command denial.answer body.now) }
{
    let Denial {
        zone,
        command,
        answer,
    } = denial;
    // message_read tests it too: a range, which would be a public function more to share
    if !matches!(answer, 0x82..=0x86) {
        return Err(Refusal::WrongAnswer);
    }
    write_raw(
        Direction::Answer,
        Fields {
            zone,
            command,
            answer,
        },
        body,
        buf,
        at,
    )
}

// A command or a status, once its zone, row, length and form are judged.
#[tactic(auto, using(message::proofs::Writes::said_refused, message::proofs::Writes::said_length, message::proofs::Writes::said_form, message::proofs::Writes::said_good, message::proofs::Writes::said_refused_left, message::proofs::Writes::said_length_left, message::proofs::Writes::said_form_left, message::proofs::Writes::said_good_left))]
fn write_said(
    profile: Profile,
    direction: Direction,
    said: Said,
    buf: &mut [u8],
    at: usize,
) -> Result<usize, Refusal>
    ensures answers { result ≡ write_answered (said_rules profile direction said.zone said.command said.content) buf.old at (frame_of direction said.zone said.command 0 (said_data profile said.command said.content)) }
    ensures leaves { buf.new ≡ write_left (said_rules profile direction said.zone said.command said.content) buf.old at (frame_of direction said.zone said.command 0 (said_data profile said.command said.content)) }
{
    let Said {
        zone,
        command,
        content,
    } = said;
    let row = judge_row(profile, zone, command)?;
    if !length_fits(direction, row, size_of(content)) {
        return Err(Refusal::WrongLength);
    }
    if !is_form(direction, row, content) {
        return Err(form_refusal(direction, row, content));
    }
    // what a command or a status says has the answer code 00
    let fields = Fields {
        zone,
        command,
        answer: 0,
    };
    write_encoded(direction, fields, encode(row, content), buf, at)
}

// The frame of fields and of one or two bytes of data.
fn write_encoded(
    direction: Direction,
    fields: Fields,
    encoded: Option<Encoded>,
    buf: &mut [u8],
    at: usize,
) -> Result<usize, Refusal>
    ensures answers { result ≡ write_answered (raw_rules (encoded_data encoded)) buf.old at (frame_of direction fields.zone fields.command fields.answer (encoded_data encoded)) }
    ensures leaves { buf.new ≡ write_left (raw_rules (encoded_data encoded)) buf.old at (frame_of direction fields.zone fields.command fields.answer (encoded_data encoded)) }
{
    // Three arms with the same call: the bytes of each live in its own arm only, so no one slice can stand for the
    // three. message_content lends them to a closure for two callers; for one it would be no shorter.
    match encoded {
        Some(Encoded::One(first)) => write_raw(direction, fields, &[first], buf, at),
        Some(Encoded::Two(first, second)) => write_raw(
            direction,
            fields,
            &[first, second],
            buf,
            at,
        ),
        None => write_raw(direction, fields, &[], buf, at),
    }
}
