// The classes of characters.
ghost use Rattle.std.specs.Prelude.{◌≡◌};
ghost use Rattle.characters.specs.Class.{is_capital, is_digit};

// A capital letter, A to Z.
#[tactic(auto, unfolding(crate::specs::Class::is_from))]
pub fn is_capital(byte: u8) -> bool
    ensures { result ≡ is_capital byte }
{
    matches!(byte, b'A'..=b'Z')
}

// A decimal digit.
#[tactic(auto, unfolding(crate::specs::Class::is_from))]
pub fn is_digit(byte: u8) -> bool
    ensures { result ≡ is_digit byte }
{
    matches!(byte, b'0'..=b'9')
}
