// Text at a place of a buffer that has room for it: each function answers the place behind its text.
// Buffer and place go side by side, as in the public writers below: each put says how many bytes it may take, and no
// two say the same, so a struct of the two would say it at each method again.
ghost use Rattle.std.specs.Prelude.{◌≡◌, ◌+◌, ◌^◌, ◌≤◌, ◌<◌, length};
ghost use Rattle.lent.specs.Written.{written_count};
ghost use Rattle.characters.specs.Decimal.{decimal, integer};
ghost use Rattle.characters.specs.Hex.{hex_byte};
ghost use Rattle.listing_pieces.specs.Computed.{Put};

use characters::hex::write_hex;
use decimal::decimal::{write_decimal, write_integer};
use lent::written::write_bytes;
use refusals::refusal::Refusal;

// Four of one shape: what differs is the writer and its bound, which is all that each has.
#[tactic(auto, using(listing_pieces::proofs::Puts::wrote, listing_pieces::proofs::Puts::within))]
pub(crate) fn put_bytes(buf: &mut [u8], at: usize, text: &[u8]) -> usize
    requires { at + length text.now ≤ length buf.old }
    ensures { Put (length text.now) buf.old at text.now buf.new result }
{
    behind(at, write_bytes(buf, at, text))
}

// A number of at most five digits.
pub(crate) fn put_number(buf: &mut [u8], at: usize, number: u16) -> usize
    requires { at + 5 ≤ length buf.old }
    ensures { Put 5 buf.old at (decimal number) buf.new result }
{
    behind(at, write_decimal(buf, at, u32::from(number)))
}

// A number that may be below zero.
pub(crate) fn put_integer(buf: &mut [u8], at: usize, number: i16) -> usize
    requires { at + 6 ≤ length buf.old }
    ensures { Put 6 buf.old at (integer number) buf.new result }
{
    behind(at, write_integer(buf, at, i32::from(number)))
}

pub(crate) fn put_hex(buf: &mut [u8], at: usize, byte: u8) -> usize
    requires { at + 2 ≤ length buf.old }
    ensures { Put 2 buf.old at (hex_byte byte) buf.new result }
{
    behind(at, write_hex(buf, at, byte))
}

// The place behind what was written.
fn behind(at: usize, written: Result<usize, Refusal>) -> usize
    requires { at + written_count written < 2 ^ 64 }
    ensures { result ≡ at + written_count written }
{
    at + written.unwrap_or(0)
}
