ghost use Rattle.std.specs.Prelude.{◌≡◌};
ghost use Rattle.row.specs.Profile.{profile_of};
ghost use Rattle.signing.specs.ByLetter.{file_signed_by, held_file, capture_cell_by};

use crate::capture::fed_with;
use crate::sign::sheet_holds;
use refusals::refusal::{Fault, Refusal};
use row::profile::Profile;
use sheetfile_code::file::read_file;
use signing::by_letter::HeldFile;
use tracker::tracker::Kept;
use tracker_code::known::kept_in;

// Signs a sheet file off by a capture of answers, with a tracker of its own: 12 for a letter that names no profile,
// then 11, then the file's refusals, then yes or no.
pub fn sign_file(letter: u8, file: &[u8], capture: &[u8]) -> Result<bool, Fault>
    ensures { result ≡ file_signed_by (profile_of letter) file.now capture.now }
{
    let profile = Profile::try_from(letter)?;
    let held = hold_file(profile, file, capture)?;
    Ok(held.agrees)
}

// Signs a sheet file off in the same way, and gives the tracker and the lines with it, for whoever says which lines do
// not hold: the capture is fed once, and the file read once. With a refusal nothing is given.
#[tactic(auto, using(signing::proofs::Plains::read_room, signing::proofs::Plains::held_read))]
pub fn hold_file(profile: Profile, file: &[u8], capture: &[u8]) -> Result<HeldFile, Fault>
    ensures { result ≡ held_file profile file.now capture.now }
{
    let tracker = fed_with(profile, capture)?;
    let sheet = read_file(profile, file)?;
    Ok(HeldFile {
        agrees: sheet_holds(tracker, sheet),
        tracker,
        sheet,
    })
}

// What a tracker made new knows of a row and zone once a capture of answers was fed to it: 12, then 11.
pub fn cell_in_capture(letter: u8, capture: &[u8], zone: u8, command: u8) -> Result<Kept, Refusal>
    ensures { result ≡ capture_cell_by (profile_of letter) capture.now zone command }
{
    let profile = Profile::try_from(letter)?;
    Ok(kept_in(fed_with(profile, capture)?, zone, command))
}
