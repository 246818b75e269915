// What an input of the listing program asks for.
ghost use Rattle.std.specs.Prelude.{◌≡◌};
ghost use Rattle.listing_text.specs.Listing.{asked};

use frame::direction::Direction;
use frame_capture::capture::CAPTURE_LIMIT;
use refusals::refusal::Refusal;
use row::profile::Profile;

// The two letters, and a capture of at most 60,000 bytes behind them.
pub fn what_is_asked(input: &[u8]) -> Result<(Profile, Direction), Refusal>
    ensures { result ≡ asked input.now }
{
    let [profile, direction, capture @ ..] = input else {
        return Err(Refusal::WrongLetter);
    };
    let asked = (
        Profile::try_from(*profile)?,
        Direction::try_from(*direction)?,
    );
    if capture.len() > CAPTURE_LIMIT {
        return Err(Refusal::TooLong);
    }
    Ok(asked)
}
