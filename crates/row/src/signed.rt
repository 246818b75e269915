// The ways between a code and the number it means, and the code that is minus zero.
ghost use Rattle.std.specs.Prelude.{◌≡◌};
ghost use Rattle.row.specs.Signed.{number_of, code_of, plain_code_of};
ghost use Rattle.row.specs.MinusZero.{is_minus_zero};

use crate::table::Row;

// The number that `code` means: 00 to 7F themselves, 80 and up minus (code less 80 hex).
#[tactic(auto, unfolding(crate::specs::Signed::number_of))]
pub fn number_of(code: u8) -> i16
    ensures { result ≡ number_of code }
{
    if code < 0x80 {
        i16::from(code)
    } else {
        0x80 - i16::from(code)
    }
}

// The code that means `number`, or none where none does; 0 gives 00, never 80.
#[tactic(auto, using(crate::proofs::Ranges::minus), unfolding(crate::specs::Signed::code_of))]
pub fn code_of(number: i16) -> Option<u8>
    ensures { result ≡ code_of number }
{
    match number {
        -127..=-1 => Some(0x80 + number.unsigned_abs() as u8),
        0..=127 => Some(number as u8),
        _ => None,
    }
}

// The code that means `number` in a row that is not signed: codes mean themselves there.
#[tactic(auto, unfolding(crate::specs::Signed::plain_code_of))]
pub fn plain_code_of(number: i16) -> Option<u8>
    ensures { result ≡ plain_code_of number }
{
    u8::try_from(number).ok()
}

// Whether a code is minus zero in a row: 80 where codes mean signed numbers, which is 0 as 00 is. No method of the
// row: README and docs/ONE-ANSWER.md name it so.
pub fn is_minus_zero(row: Row, code: u8) -> bool
    ensures { result ≡ is_minus_zero row code }
{
    code == 0x80 && row.signed
}
