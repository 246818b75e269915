// Numbers in decimal.
ghost use Rattle.std.specs.Prelude.{◌≡◌, [], ◌++◌, ◌+◌, ◌≤◌, nat_abs, length};
ghost use Rattle.lent.specs.Placed.{placed};
ghost use Rattle.lent.specs.Written.{write_answered, write_left};
ghost use Rattle.characters.specs.Letters.{letters};
ghost use Rattle.characters.specs.Decimal.{decimal, integer};
ghost use Rattle.characters.specs.Computed.{last_digits};

use lent::written::lacks_room;
use refusals::refusal::Refusal;

// Writes a number's decimal digits; 9 where there is no room for them, and then the buffer is as it was.
#[tactic(auto, using(lent::proofs::Room::room_within, characters::proofs::Digits::decimal_last, characters::proofs::Rooms::refused, characters::proofs::Rooms::written))]
pub fn write_decimal(buf: &mut [u8], at: usize, number: u32) -> Result<usize, Refusal>
    ensures answers { result ≡ write_answered [] buf.old at (decimal number) }
    ensures leaves { buf.new ≡ write_left [] buf.old at (decimal number) }
{
    let count = digits_of(number);
    if lacks_room(buf.len(), at, count) {
        return Err(Refusal::NoRoom);
    }
    put_digits(buf, at, number, count);
    Ok(count)
}

// Writes a number that may be below zero, and then with a minus sign; 9 where there is no room.
pub fn write_integer(buf: &mut [u8], at: usize, number: i32) -> Result<usize, Refusal>
    ensures answers { result ≡ write_answered [] buf.old at (integer number) }
    ensures leaves { buf.new ≡ write_left [] buf.old at (integer number) }
{
    let size = number.unsigned_abs();
    if number < 0 {
        write_minus(buf, at, size)
    } else {
        write_decimal(buf, at, size)
    }
}

// A minus sign, and a number's digits behind it.
#[tactic(auto, unfolding(characters::specs::Letters::letters), using(lent::proofs::Placed::placed_both, lent::proofs::Room::room_within, characters::proofs::Digits::decimal_last, characters::proofs::Digits::decimal_most, characters::proofs::Rooms::refused, characters::proofs::Rooms::written))]
fn write_minus(buf: &mut [u8], at: usize, size: u32) -> Result<usize, Refusal>
    ensures answers { result ≡ write_answered [] buf.old at (letters "-" ++ decimal size) }
    ensures leaves { buf.new ≡ write_left [] buf.old at (letters "-" ++ decimal size) }
{
    let count = digits_of(size);
    let length = count + 1;
    if lacks_room(buf.len(), at, length) {
        return Err(Refusal::NoRoom);
    }
    buf[at] = b'-';
    put_digits(buf, at + 1, size, count);
    Ok(length)
}

// How many digits a number has: one more than zeros in the greatest power of ten within it.
#[tactic(auto, using(characters::proofs::Digits::decimal_power, characters::proofs::Digits::decimal_none))]
fn digits_of(number: u32) -> usize
    ensures { result ≡ length (decimal number) }
{
    match number.checked_ilog10() {
        None => 1,
        Some(zeros) => zeros as usize + 1,
    }
}

// The last digits of a number, so many, from the last to the first. By places: of what `iter_mut().rev()` has written a
// proof knows the length alone.
#[tactic(auto, unfolding(characters::specs::Computed::last_digits))]
fn put_digits(buf: &mut [u8], at: usize, number: u32, count: usize)
    requires { at + count ≤ length buf.old }
    ensures { buf.new ≡ placed buf.old at (last_digits count number) }
{
    let mut rest = number;
    for i in (0..count).rev() {
        buf[at + i] = b'0' + (rest % 10) as u8;
        rest /= 10;
    }
}
