// The bytes that a line's arguments are.
ghost use Rattle.std.specs.Prelude.{◌<◌};

use characters::hex::hex_value;
use fields::fields::Fields;
use frame::direction::Direction;
use refusals::refusal::{Fault, Refusal};
use row::profile::Profile;
use sheet::line::Line;

// A line's word and 13 arguments.
const WORDS: usize = 14;

// The arguments' bytes, one behind another, where the bytes of each word end, and how many words there are. The line's
// own word is the first, and has no bytes. An array and a count: no heap, and no word more than WORDS is kept.
#[derive(Clone, Copy)]
pub(crate) struct Arguments<'a> {
    space: &'a [u8],
    ends: [usize; WORDS],
    count: usize,
}

// What is decoded so far: the words that have ended (an array and a count, as in Arguments), how many bytes there are,
// and the digit that waits for its second.
#[derive(Drop)]
struct Decoded {
    ends: [usize; WORDS],
    count: usize,
    at: usize,
    digit: Option<u8>,
}

impl Decoded {
    // A hex digit; two are a byte, which takes the place of characters that were decoded before.
    fn take_digit(&mut self, digit: u8, space: &mut [u8]) {
        let Some(first) = self.digit else {
            self.digit = Some(digit);
            return;
        };
        self.digit = None;
        if self.at < space.len() {
            space[self.at] = first << 4 | digit;
            self.at += 1;
        }
    }

    // A word ends; one too many is not kept.
    fn end_word(&mut self) {
        self.digit = None;
        if self.count < WORDS {
            self.ends[self.count] = self.at;
            self.count += 1;
        }
    }
}

impl<'a> Arguments<'a> {
    // Decodes what is behind a line's word in its own space, from the start on: the bytes take half of their
    // characters. A character that is no hex digit is passed over.
    pub(crate) fn decoded(space: &'a mut [u8]) -> Arguments<'a> {
        let mut decoded = Decoded {
            ends: [0; WORDS],
            count: 0,
            at: 0,
            digit: None,
        };
        // by place, since the bytes are written where characters were read
        for i in 0..space.len() {
            let letter = space[i];
            if letter == b' ' {
                decoded.end_word();
            } else if let Some(digit) = hex_value(letter.to_ascii_uppercase()) {
                decoded.take_digit(digit, space);
            }
        }
        decoded.end_word();
        Arguments {
            space,
            ends: decoded.ends,
            count: decoded.count,
        }
    }

    // How many words the line has, its own and the arguments.
    pub(crate) fn count(&self) -> usize {
        self.count
    }

    // The bytes of an argument, the first at 1; none where it is not there.
    pub(crate) fn bytes(&self, place: usize) -> &'a [u8] {
        if place == 0 || place >= WORDS {
            return &[];
        }
        self.space
            .get(self.ends[place - 1]..self.ends[place])
            .unwrap_or(&[])
    }

    // An argument as a number, the most significant byte first; of a longer one the last 8.
    pub(crate) fn number(&self, place: usize) -> u64 {
        self.bytes(place)
            .iter()
            .fold(0, |number: u64, byte| number << 8 | u64::from(*byte))
    }

    // The last two bytes of an argument.
    pub(crate) fn short(&self, place: usize) -> u16 {
        (self.number(place) % 65536) as u16
    }

    // The last byte of an argument; 0 where it has none.
    pub(crate) fn byte(&self, place: usize) -> u8 {
        (self.number(place) % 256) as u8
    }

    // A direction by its letter.
    pub(crate) fn direction(&self, place: usize) -> Result<Direction, Refusal> {
        Direction::try_from(self.byte(place))
    }

    // The profile by its letter, which is the first argument.
    pub(crate) fn profile(&self) -> Result<Profile, Refusal> {
        Profile::try_from(self.byte(1))
    }

    // The same, for an operation on a sheet, whose refusals have a place.
    pub(crate) fn sheet_profile(&self) -> Result<Profile, Fault> {
        Ok(self.profile()?)
    }

    // Zone, command and answer code, from a place on.
    pub(crate) fn fields(&self, place: usize) -> Fields
        requires { place < 14 }
    {
        Fields {
            zone: self.byte(place),
            command: self.byte(place + 1),
            answer: self.byte(place + 2),
        }
    }
}
