ghost use Rattle.std.specs.Prelude.{◌≡◌};
ghost use Rattle.row.specs.Profile.{profile_of};
ghost use Rattle.sheet.specs.Sheet.{no_lines, with_all};
ghost use Rattle.sheetfile.specs.File.{line_of, lines_in, is_marked, lowest_wrong, file_read, file_read_by};
ghost use Rattle.sheetfile.specs.Computed.{record_in, records_in};

use refusals::refusal::{Fault, Refusal};
use row::profile::Profile;
use sheet::line::Line;
use sheet::sheet::Sheet;
use sheet_code::check::checked;
use sheet_code::lines::{no_lines, with_line};

// The bytes of a line in a sheet file.
pub const RECORD: usize = 6;

// Reads a sheet file of the profile that a letter names; 12 for any other letter.
pub fn read_file_by_letter(letter: u8, file: &[u8]) -> Result<Sheet, Fault>
    ensures { result ≡ file_read_by (profile_of letter) file.now }
{
    read_file(Profile::try_from(letter)?, file)
}

// Reads a sheet file: 10 where its length is not whole records, then for the lowest record with a wrong mark
// or profile; then the sheet's checks.
pub fn read_file(profile: Profile, file: &[u8]) -> Result<Sheet, Fault>
    ensures { result ≡ file_read profile file.now }
{
    let (records, rest) = file.as_chunks::<RECORD>();
    if !rest.is_empty() {
        return Err(Fault {
            refusal: Refusal::WrongFile,
            place: records.len(),
        });
    }
    lowest_wrong(profile, records)?;
    let sheet = lines_in(records);
    checked(profile, sheet)?;
    Ok(sheet)
}

// The lowest record with a wrong mark or profile.
#[tactic(auto, using(sheetfile::proofs::Records::marked_on, sheetfile::proofs::Records::marked_not, sheetfile::proofs::Records::marked_end))]
fn lowest_wrong(profile: Profile, records: &[[u8; RECORD]]) -> Result<(), Fault>
    ensures { result ≡ lowest_wrong profile 0 (records_in records.now) }
{
    for (place, six) in records.iter().enumerate() {
        if !is_marked(profile, six) {
            return Err(Fault {
                refusal: Refusal::WrongFile,
                place,
            });
        }
    }
    Ok(())
}

// Whether the six bytes of a record have the mark and the profile's letter.
fn is_marked(profile: Profile, six: &[u8; RECORD]) -> bool
    ensures { result ≡ is_marked profile (record_in six.now) }
{
    six.starts_with(&[b'S', b'L', profile.letter()])
}

// The lines of some records.
fn lines_in(records: &[[u8; RECORD]]) -> Sheet
    ensures { result ≡ with_all no_lines (lines_in (records_in records.now)) }
{
    records
        .iter()
        .fold(no_lines(), |sheet, six| with_line(sheet, line_of(six)))
}

// The line that the six bytes of a record hold.
fn line_of(six: &[u8; RECORD]) -> Line
    ensures { result ≡ line_of (record_in six.now) }
{
    let &[_, _, _, zone, command, value] = six;
    Line {
        zone,
        command,
        value,
    }
}
