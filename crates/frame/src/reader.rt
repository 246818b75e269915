ghost use Rattle.std.specs.Prelude.{◌≡◌, ◌≤◌};
ghost use Rattle.frame.specs.Frame.{header};
ghost use Rattle.frame.specs.KeptReader.{fresh_reader, stood, fed_at, fed_of};

use crate::direction::Direction;

// The answer to one byte. A frame and a broken stretch come with their length in bytes. The host
// keeps the bytes: 261 of them are enough for the longest frame.
#[derive(Clone, Copy, Debug, PartialEq, Eq)]
pub enum ByteAnswer {
    Waiting,
    Noise,
    Frame(u16),
    Broken(u16),
}

// A reader for one direction. It keeps no bytes of the frame: `place` is how many are taken (0: it
// stands outside), and `dl` is Dl, or 0 while Dl is still to come. Numbers and no enum: a host may have
// spoilt them, and SpoiltPromise answers every value.
#[derive(Clone, Copy, Debug, PartialEq, Eq)]
pub struct Reader {
    pub direction: Direction,
    pub place: u16,
    pub dl: u8,
}

// The reader after a byte, and the answer to that byte.
#[derive(Clone, Copy, Debug, PartialEq, Eq)]
pub struct Fed {
    pub reader: Reader,
    pub answer: ByteAnswer,
}

impl Reader {
    // 21 Zn Cc Dl
    pub const COMMAND_HEADER: u16 = 4;

    // 21 Zn Cc Ac Dl
    pub const ANSWER_HEADER: u16 = 5;

    // The most that Dl can count.
    pub const DATA_LIMIT: u16 = 255;

    pub const OPENS: u8 = 0x21;

    pub const ENDS: u8 = 0x0D;

    // A fresh reader stands outside any frame.
    pub fn new(direction: Direction) -> Self
        ensures { result ≡ fresh_reader direction }
    {
        Self {
            direction,
            place: 0,
            dl: 0,
        }
    }

    // How many bytes stand before the data.
    pub fn header(direction: Direction) -> u16
        ensures { result ≡ header direction }
    {
        match direction {
            Direction::Command => Reader::COMMAND_HEADER,
            Direction::Answer => Reader::ANSWER_HEADER,
        }
    }

    // Takes one byte. Whatever the fields hold is answered: a place past the end place counts as the
    // end place.
    pub fn feed(self, byte: u8) -> Fed
        ensures { result ≡ fed_of self byte }
    {
        self.take(Reader::header(self.direction), byte)
    }

    // One byte by the reader's rule, over the header's length.
    #[tactic(auto, unfolding(crate::specs::KeptReader::fed_at))]
    fn take(self, header: u16, byte: u8) -> Fed
        requires { header ≤ 5 }
        ensures { result ≡ fed_at self.direction header self.place self.dl byte }
    {
        let place = self.place;
        let end = header + u16::from(self.dl);
        if place == 0 {
            match byte {
                Reader::OPENS => self.stands(1, 0, ByteAnswer::Waiting),
                _ => self.stands(0, 0, ByteAnswer::Noise),
            }
        } else if place < header {
            let dl = if place + 1 == header { byte } else { 0 };
            self.stands(place + 1, dl, ByteAnswer::Waiting)
        } else if place < end {
            self.stands(place + 1, self.dl, ByteAnswer::Waiting)
        } else {
            match byte {
                Reader::ENDS => self.stands(0, 0, ByteAnswer::Frame(end + 1)),
                Reader::OPENS => self.stands(1, 0, ByteAnswer::Broken(end)),
                _ => self.stands(0, 0, ByteAnswer::Broken(end + 1)),
            }
        }
    }

    // Where it stands after a byte, with the answer to it.
    fn stands(self, place: u16, dl: u8, answer: ByteAnswer) -> Fed
        ensures { result ≡ stood self.direction place dl answer }
    {
        Fed {
            reader: Reader { place, dl, ..self },
            answer,
        }
    }
}
