// One event of a capture as a line of text.
ghost use Rattle.std.specs.Prelude.{◌≡◌, ◌++◌, ◌+◌, ◌^◌, ◌≤◌, ◌<◌, length, Err, Ok, Some};
ghost use Rattle.frame.specs.Capture.{capture_limit};
ghost use Rattle.message.specs.declared.content.Content.TheVariants as content;
ghost use Rattle.message.specs.declared.read.Message.TheVariants as message;
ghost use Rattle.characters.specs.Letters.{letters};
ghost use Rattle.characters.specs.Decimal.{decimal};
ghost use Rattle.characters.specs.Hex.{hex_byte};
ghost use Rattle.listing_text.specs.Listing.{value_text, read_text, event_text, event_line};
ghost use Rattle.listing_pieces.specs.Computed.{Put, behind, answer_text, said_behind, shown_of};

use crate::put::{put_bytes, put_hex, put_integer, put_number};
use frame::capture::{Event, Kind};
use frame::direction::Direction;
use lent::part::bytes_at;
use listing_pieces::event::Shown;
use message::content::Content;
use message::read::{Denial, Message, Said};
use message_read::read::read_frame;
use refusals::refusal::Refusal;
use row::profile::Profile;

// A capture that is listed: the receivers that it is of, which way its frames go, and its bytes, within the limit.
#[derive(Clone, Copy)]
pub(crate) struct Listed<'a> {
    pub profile: Profile,
    pub direction: Direction,
    pub capture: &'a [u8],
    ghost short: { length capture.now ≤ capture_limit },
}

impl Listed<'_> {
    // Where an event is, how long it is, and what it is.
    pub(crate) fn put_event(&self, event: Event, buf: &mut [u8], at: usize) -> usize
        requires { (event.at < 2 ^ 16) × (event.length < 2 ^ 16) × (at + 38 ≤ length buf.old) }
        ensures { Put 38 buf.old at (event_line self.now.profile self.now.direction self.now.capture.now event) buf.new result }
    {
        let first = put_number(buf, at, event.at as u16);
        let second = put_bytes(buf, first, b" ");
        let third = put_number(buf, second, event.length as u16);
        let bytes = bytes_at(self.capture, event.at, event.length);
        self.put_kind(bytes, event.kind, buf, third)
    }

    // What stands behind the place and the length. 27 bytes are the most that it takes, so that each function which
    // chooses among its texts asks for as many.
    #[tactic(auto, unfolding(characters::specs::Letters::letters, listing_text::specs::Listing::text_line))]
    fn put_kind(&self, bytes: &[u8], kind: Kind, buf: &mut [u8], at: usize) -> usize
        requires { at + 27 ≤ length buf.old }
        ensures { Put 27 buf.old at (behind (event_text self.now.profile self.now.direction bytes.now kind)) buf.new result }
    {
        match kind {
            Kind::Frame => put_reading(read_frame(self.profile, self.direction, bytes), buf, at),
            Kind::Broken => put_bytes(buf, at, b" broken - - - -\n"),
            Kind::Noise => put_bytes(buf, at, b" noise - - - -\n"),
            Kind::Pending => put_bytes(buf, at, b" pending - - - -\n"),
        }
    }
}

#[tactic(auto, unfolding(characters::specs::Letters::letters, listing_text::specs::Listing::text_line))]
fn put_reading(reading: Option<Result<Message, Refusal>>, buf: &mut [u8], at: usize) -> usize
    requires { at + 27 ≤ length buf.old }
    ensures { Put 27 buf.old at (behind (read_text reading)) buf.new result }
{
    match reading {
        Some(Ok(message)) => put_message(message, buf, at),
        Some(Err(refusal)) => put_unread(refusal, buf, at),
        None => put_bytes(buf, at, b" broken - - - -\n"),
    }
}

fn put_unread(refusal: Refusal, buf: &mut [u8], at: usize) -> usize
    requires { at + 20 ≤ length buf.old }
    ensures { Put 20 buf.old at (behind (read_text (Some (Err refusal)))) buf.new result }
{
    let first = put_bytes(buf, at, b" unread - - - ");
    let second = put_number(buf, first, u16::from(refusal.number()));
    put_bytes(buf, second, b"\n")
}

#[tactic(auto, unfolding(characters::specs::Letters::letters, listing_text::specs::Listing::text_line))]
fn put_message(message: Message, buf: &mut [u8], at: usize) -> usize
    requires { at + 27 ≤ length buf.old }
    ensures { Put 27 buf.old at (behind (read_text (Some (Ok message)))) buf.new result }
{
    match shown_of(message) {
        Shown::Said(said, answered) => put_said(said, answered, buf, at),
        Shown::Denied(denial) => put_denied(denial, buf, at),
    }
}

fn shown_of(message: Message) -> Shown
    ensures { result ≡ shown_of message }
{
    match message {
        Message::Command(said) => Shown::Said(said, false),
        Message::Status(said) => Shown::Said(said, true),
        Message::Denied(denial) => Shown::Denied(denial),
    }
}

// Commands and statuses by one call, with a flag that tells them apart: a call for each cost a frame some fifty
// instructions more (docs/BENCHMARK.md).
fn put_said(said: Said, answered: bool, buf: &mut [u8], at: usize) -> usize
    requires { at + 27 ≤ length buf.old }
    ensures { Put 27 buf.old at (said_behind (answer_text answered) said) buf.new result }
{
    let word = put_bytes(buf, at, b" frame ");
    let next = put_named(said.zone, said.command, buf, word);
    let value = put_answer(answered, buf, next);
    put_last(said.content, buf, value)
}

// The answer with a space on either side: a dash in commands; a status was answered with 00. Each text is put as it
// stands: one that is passed on is copied byte by byte.
#[tactic(auto, unfolding(characters::specs::Letters::letters))]
fn put_answer(answered: bool, buf: &mut [u8], at: usize) -> usize
    requires { at + 4 ≤ length buf.old }
    ensures { Put 4 buf.old at (answer_text answered) buf.new result }
{
    if answered {
        put_bytes(buf, at, b" 00 ")
    } else {
        put_bytes(buf, at, b" - ")
    }
}

fn put_denied(denial: Denial, buf: &mut [u8], at: usize) -> usize
    requires { at + 22 ≤ length buf.old }
    ensures { Put 22 buf.old at (behind (read_text (Some (Ok (message.Denied denial))))) buf.new result }
{
    let word = put_bytes(buf, at, b" denied ");
    let first = put_named(denial.zone, denial.command, buf, word);
    let second = put_bytes(buf, first, b" ");
    let third = put_hex(buf, second, denial.answer);
    put_bytes(buf, third, b" -\n")
}

// The zone and the command. The word before them is put by the caller, as it stands there: passed on, it would be copied
// by a call.
fn put_named(zone: u8, command: u8, buf: &mut [u8], at: usize) -> usize
    requires { at + 8 ≤ length buf.old }
    ensures { Put 8 buf.old at (decimal zone ++ (letters " " ++ hex_byte command)) buf.new result }
{
    let zone = put_number(buf, at, u16::from(zone));
    let space = put_bytes(buf, zone, b" ");
    put_hex(buf, space, command)
}

// The value, and the line's end.
fn put_last(content: Content, buf: &mut [u8], at: usize) -> usize
    requires { at + 8 ≤ length buf.old }
    ensures { Put 8 buf.old at (value_text content ++ letters "\n") buf.new result }
{
    let end = put_value(content, buf, at);
    put_bytes(buf, end, b"\n")
}

#[tactic(auto, unfolding(characters::specs::Letters::letters))]
fn put_value(content: Content, buf: &mut [u8], at: usize) -> usize
    requires { at + 7 ≤ length buf.old }
    ensures { Put 7 buf.old at (value_text content) buf.new result }
{
    match content {
        Content::Request => put_bytes(buf, at, b"request"),
        Content::Up => put_bytes(buf, at, b"up"),
        Content::Down => put_bytes(buf, at, b"down"),
        Content::On => put_bytes(buf, at, b"on"),
        Content::Off => put_bytes(buf, at, b"off"),
        Content::Toggle => put_bytes(buf, at, b"toggle"),
        Content::LevellerOff => put_bytes(buf, at, b"off"),
        Content::Number(number) => put_integer(buf, at, number),
        Content::Input(input, on) => put_input(input, on, buf, at),
    }
}

// An input of S 0F and its state.
fn put_input(input: u8, on: bool, buf: &mut [u8], at: usize) -> usize
    requires { at + 7 ≤ length buf.old }
    ensures { Put 7 buf.old at (value_text (content.Input input on)) buf.new result }
{
    let colon = put_number(buf, at, u16::from(input));
    if on {
        put_bytes(buf, colon, b":1")
    } else {
        put_bytes(buf, colon, b":0")
    }
}
