// Hex digits: their values, and a byte as two of them.
ghost use Rattle.std.specs.Prelude.{◌≡◌, [], ◌%◌};
ghost use Rattle.lent.specs.Written.{write_answered, write_left};
ghost use Rattle.characters.specs.Hex.{hex_value, hex_digit, hex_byte};

use lent::written::lacks_room;
use refusals::refusal::Refusal;

// The value of a hex digit, of which the letters are capitals; none for any other character.
#[tactic(auto, unfolding(crate::specs::Class::is_from, crate::specs::Hex::hex_value))]
pub fn hex_value(byte: u8) -> Option<u8>
    ensures { result ≡ hex_value byte }
{
    match byte {
        b'0'..=b'9' => Some(byte - b'0'),
        b'A'..=b'F' => Some(byte - b'A' + 10),
        _ => None,
    }
}

// The hex digit of a value's low four bits. A `match` that gives one number an arm is a constant table.
pub fn hex_digit(value: u8) -> u8
    ensures { result ≡ hex_digit (value % 16) }
{
    match value % 16 {
        0 => b'0',
        1 => b'1',
        2 => b'2',
        3 => b'3',
        4 => b'4',
        5 => b'5',
        6 => b'6',
        7 => b'7',
        8 => b'8',
        9 => b'9',
        10 => b'A',
        11 => b'B',
        12 => b'C',
        13 => b'D',
        14 => b'E',
        _ => b'F',
    }
}

// A byte's two hex digits.
pub fn hex_byte(byte: u8) -> [u8; 2]
    ensures { result ≡ hex_byte byte }
{
    [hex_digit(byte / 16), hex_digit(byte % 16)]
}

// Writes a byte as two hex digits; 9 where there is no room for them, and then the buffer is as it was. By its own test
// of room and no call of write_bytes: the must-fail edit nine_late asks that test for one byte too few.
#[tactic(auto, using(lent::proofs::Room::room_within, crate::proofs::Rooms::refused, crate::proofs::Rooms::written))]
pub fn write_hex(buf: &mut [u8], at: usize, byte: u8) -> Result<usize, Refusal>
    ensures answers { result ≡ write_answered [] buf.old at (hex_byte byte) }
    ensures leaves { buf.new ≡ write_left [] buf.old at (hex_byte byte) }
{
    if lacks_room(buf.len(), at, 2) {
        return Err(Refusal::NoRoom);
    }
    buf[at] = hex_digit(byte / 16);
    buf[at + 1] = hex_digit(byte % 16);
    Ok(2)
}
