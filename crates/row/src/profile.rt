ghost use Rattle.std.specs.Prelude.{◌≡◌};
ghost use Rattle.row.specs.Profile.{profile_of, letter_of, zones_of};

use refusals::refusal::Refusal;

// A receiver family: A is the AVR500, AVR600 and AV888, S the SA750.
#[derive(Clone, Copy, Debug, PartialEq, Eq)]
pub enum Profile {
    A,
    S,
}

impl Profile {
    // The letter of a profile.
    pub fn letter(self) -> u8
        ensures { result ≡ letter_of self }
    {
        match self {
            Profile::A => b'A',
            Profile::S => b'S',
        }
    }

    // A profile's zones are 1 to this.
    pub fn zones(self) -> u8
        ensures { result ≡ zones_of self }
    {
        match self {
            Profile::A => 3,
            Profile::S => 2,
        }
    }
}

// `A` and `S` name themselves; any other letter is refused with 12.
impl TryFrom<u8> for Profile {
    type Error = Refusal;

    ghost try_from_gives = { λ letter answer. answer ≡ profile_of letter };

    #[tactic(auto, unfolding(crate::specs::Profile::profile_of))]
    fn try_from(letter: u8) -> Result<Profile, Refusal> {
        match letter {
            b'A' => Ok(Profile::A),
            b'S' => Ok(Profile::S),
            _ => Err(Refusal::WrongLetter),
        }
    }
}
