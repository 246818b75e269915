// Every message of a small space.
use crate::arguments::Arguments;
use crate::messages::{say_content, say_reading};
use crate::out::{Output, Stop, say_byte, say_byte_after, say_bytes};
use fields::fields::Fields;
use frame::direction::Direction;
use message::read::Message;
use message_read::read::read_message;
use refusals::refusal::Refusal;
use row::profile::Profile;
use std::io;
use std::io::Write;

// How many messages were accepted, and how many got each refusal that reading gives.
#[derive(Drop)]
struct Counts {
    accepted: u64,
    refused: [(Refusal, u64); 6],
}

impl Counts {
    fn none() -> Counts {
        Counts {
            accepted: 0,
            refused: [
                (Refusal::WrongZone, 0),
                (Refusal::NoRow, 0),
                (Refusal::WrongLength, 0),
                (Refusal::WrongValue, 0),
                (Refusal::WrongAnswer, 0),
                (Refusal::NoStep, 0),
            ],
        }
    }

    // One message: counted, and said where it is accepted.
    fn count(
        &mut self,
        out: &mut Output,
        profile: Profile,
        direction: Direction,
        fields: Fields,
        body: &[u8],
    ) -> io::Result<()> {
        match read_message(profile, direction, fields, body) {
            Ok(message) => {
                self.accepted = self.accepted.wrapping_add(1);
                say_accepted(out, fields, body, message)
            }
            Err(refusal) => {
                // a loop and no `find`: what find gives of `self` is changed, and the proof of that does not close
                for (counted, count) in &mut self.refused {
                    if *counted == refusal {
                        *count = count.wrapping_add(1);
                    }
                }
                Ok(())
            }
        }
    }

    fn say(&self, out: &mut Output) -> io::Result<()> {
        write!(out, "accepted {} refused", self.accepted)?;
        for (refusal, count) in &self.refused {
            write!(out, " {}:{count}", refusal.number())?;
        }
        Ok(())
    }
}

fn say_accepted(out: &mut Output, fields: Fields, body: &[u8], message: Message) -> io::Result<()> {
    say_byte(out, fields.zone)?;
    say_byte_after(out, fields.command)?;
    write!(out, " ")?;
    say_bytes(out, body)?;
    write!(out, " ")?;
    match message {
        Message::Command(said) | Message::Status(said) => say_content(out, said.content)?,
        Message::Denied(_) => write!(out, "denied")?,
    }
    writeln!(out)
}

// Every zone, command and data byte.
pub(crate) fn all(out: &mut Output, arguments: &Arguments) -> Result<(), Stop> {
    let profile = arguments.profile()?;
    let direction = arguments.direction(2)?;
    let mut counts = Counts::none();
    for zone in 0..=u8::MAX {
        for command in 0..=u8::MAX {
            let fields = Fields {
                zone,
                command,
                answer: 0,
            };
            for value in 0..=u8::MAX {
                counts.count(out, profile, direction, fields, &[value])?;
            }
        }
    }
    counts.say(out)?;
    Ok(())
}

// Every data of two bytes of S 0F in zone 1.
pub(crate) fn pairs(out: &mut Output, arguments: &Arguments) -> Result<(), Stop> {
    let direction = arguments.direction(1)?;
    let fields = Fields {
        zone: 1,
        command: 0x0F,
        answer: 0,
    };
    let mut counts = Counts::none();
    for first in 0..=u8::MAX {
        for second in 0..=u8::MAX {
            counts.count(out, Profile::S, direction, fields, &[first, second])?;
        }
    }
    counts.say(out)?;
    Ok(())
}

// An answer with every answer code, a line each.
pub(crate) fn codes(out: &mut Output, arguments: &Arguments) -> Result<(), Stop> {
    let profile = arguments.profile()?;
    let body = arguments.bytes(4);
    for answer in 0..=u8::MAX {
        let fields = Fields {
            zone: arguments.byte(2),
            command: arguments.byte(3),
            answer,
        };
        if answer > 0 {
            writeln!(out)?;
        }
        say_byte(out, answer)?;
        write!(out, " ")?;
        let reading = read_message(profile, Direction::Answer, fields, body);
        say_reading(out, reading, body)?;
    }
    Ok(())
}
