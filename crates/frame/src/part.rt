ghost use Rattle.std.specs.Prelude.{◌≡◌, ◌+◌, ◌<◌, ◌^◌};
ghost use Rattle.frame.specs.Capture.{part_of};
ghost use Rattle.frame.specs.KeptReader.{fed_of};
ghost use Rattle.frame.specs.Computed.{with_fed};

use crate::reader::{ByteAnswer, Reader};

// A part of a stream, taken: the reader after it, and how many bytes it settled as each kind. The
// bytes of an unfinished frame are not settled yet: the reader's `place` counts them.
#[derive(Clone, Copy, Debug, PartialEq, Eq)]
pub struct Part {
    pub reader: Reader,
    pub frame: usize,
    pub broken: usize,
    pub noise: usize,
}

// Takes a part of a stream from a given reader; the next part goes on from the reader it gives. No method of the
// reader: README and docs/ONE-ANSWER.md name it so.
#[tactic(auto, using(crate::proofs::Parts::part_more, crate::proofs::Parts::part_end, crate::proofs::Parts::part_adds, crate::proofs::Parts::held_more))]
pub fn take_part(reader: Reader, bytes: &[u8]) -> Part
    ensures { result ≡ part_of reader bytes.now }
{
    let mut part = Part {
        reader,
        frame: 0,
        broken: 0,
        noise: 0,
    };
    for &byte in bytes {
        part = part.with_byte(byte);
    }
    part
}

impl Part {
    // The part with one byte more.
    #[tactic(auto, unfolding(crate::specs::Capture::count), using(crate::proofs::Labels::count_replicate, crate::proofs::Parts::frame_most, crate::proofs::Parts::broken_most))]
    fn with_byte(mut self, byte: u8) -> Self
        requires { self.frame + self.broken + self.noise + self.reader.place + 1 < 2 ^ 64 }
        ensures { result ≡ with_fed self (fed_of self.reader byte) }
    {
        let fed = self.reader.feed(byte);
        self.reader = fed.reader;
        match fed.answer {
            ByteAnswer::Waiting => {}
            ByteAnswer::Noise => self.noise += 1,
            ByteAnswer::Frame(n) => self.frame += usize::from(n),
            ByteAnswer::Broken(n) => self.broken += usize::from(n),
        }
        self
    }
}
