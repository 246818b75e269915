ghost use Rattle.std.specs.Prelude.{◌≡◌, []};
ghost use Rattle.sheet.specs.Line.{is_repeated};
ghost use Rattle.sheet.specs.Sheet.{lines_of};
ghost use Rattle.sheet.specs.Check.{lowest_fault, sheet_verdict};
ghost use Rattle.sheet.specs.Computed.{fault_of};

use crate::line::{is_legal, is_same_cell};
use refusals::refusal::{Fault, Refusal};
use row::profile::Profile;
use sheet::line::Line;
use sheet::sheet::{SHEET_LIMIT, Sheet};

// 6, then the lowest line at fault, with its index; for 6 that is the limit.
#[tactic(auto, using(sheet::proofs::Faults::verdict_long, sheet::proofs::Faults::verdict_short, sheet::proofs::Faults::first_short))]
pub fn checked(profile: Profile, sheet: Sheet) -> Result<(), Fault>
    ensures { result ≡ sheet_verdict profile (lines_of sheet) }
{
    if SHEET_LIMIT < sheet.count {
        return Err(Fault {
            refusal: Refusal::TooManyLines,
            place: SHEET_LIMIT,
        });
    }
    lowest(profile, &sheet.lines[..sheet.count])
}

// The lowest line at fault.
#[tactic(auto, using(sheet::proofs::Faults::goes_on, sheet::proofs::Faults::stops, sheet::proofs::Faults::ends))]
fn lowest(profile: Profile, lines: &[Line]) -> Result<(), Fault>
    ensures { result ≡ lowest_fault profile [] lines.now }
{
    for (place, line) in lines.iter().enumerate() {
        if let Some(refusal) = fault_of(profile, &lines[..place], *line) {
            return Err(Fault { refusal, place });
        }
    }
    Ok(())
}

// A line's fault behind some lines, 7 before 8.
fn fault_of(profile: Profile, earlier: &[Line], line: Line) -> Option<Refusal>
    ensures { result ≡ fault_of profile earlier.now line }
{
    if !is_legal(profile, line) {
        Some(Refusal::IllegalLine)
    } else if repeats(earlier, line) {
        Some(Refusal::RepeatedLine)
    } else {
        None
    }
}

// Whether one of the lines has the zone and row of this one.
fn repeats(earlier: &[Line], line: Line) -> bool
    ensures { result ≡ is_repeated earlier.now line }
{
    earlier.iter().any(|other| is_same_cell(*other, line))
}
