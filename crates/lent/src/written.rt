// Bytes written into the rest of a lent buffer from a place.
ghost use Rattle.std.specs.Prelude.{◌≡◌, []};
ghost use Rattle.lent.specs.Written.{lacks_room, write_answered, write_left};

use refusals::refusal::Refusal;

// Writes bytes at a place, and answers how many they are; 9 where there is no room for them, and then the buffer is as
// it was.
#[tactic(auto, using(crate::proofs::Room::room_within, crate::proofs::Writes::write_nine, crate::proofs::Writes::write_there))]
pub fn write_bytes(buf: &mut [u8], at: usize, bytes: &[u8]) -> Result<usize, Refusal>
    ensures answers { result ≡ write_answered [] buf.old at bytes.now }
    ensures leaves { buf.new ≡ write_left [] buf.old at bytes.now }
{
    if lacks_room(buf.len(), at, bytes.len()) {
        return Err(Refusal::NoRoom);
    }
    buf[at..at + bytes.len()].copy_from_slice(bytes);
    Ok(bytes.len())
}

// Whether a buffer of some length has too few bytes from a place on, or the place is past its end: when 9 is given. A
// test and no Result: six writers ask it, and the rule no_room of WritePromise is this very test.
#[tactic(auto, unfolding(crate::specs::Written::lacks_room))]
pub fn lacks_room(length: usize, at: usize, count: usize) -> bool
    ensures { result ≡ lacks_room length at count }
{
    at > length || length - at < count
}
