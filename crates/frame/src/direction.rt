ghost use Rattle.std.specs.Prelude.{◌≡◌};
ghost use Rattle.frame.specs.Letter.{direction_of};

use refusals::refusal::Refusal;

// Which way a frame goes: to the unit, or back from it.
#[derive(Clone, Copy, Debug, PartialEq, Eq)]
pub enum Direction {
    Command,
    Answer,
}

// `C` names commands and `R` answers; any other letter is refused with 12.
impl TryFrom<u8> for Direction {
    type Error = Refusal;

    ghost try_from_gives = { λ letter answer. answer ≡ direction_of letter };

    #[tactic(auto, unfolding(crate::specs::Letter::direction_of))]
    fn try_from(letter: u8) -> Result<Self, Refusal> {
        match letter {
            b'C' => Ok(Direction::Command),
            b'R' => Ok(Direction::Answer),
            _ => Err(Refusal::WrongLetter),
        }
    }
}
