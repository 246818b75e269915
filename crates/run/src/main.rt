// Writes the run of a sheet file to standard output, ready for a serial port.
//   run PROFILE SHEET
#![tactic(auto)]

mod files;

use files::{LONG, count, letter, read_file, say_refused};
use lent::part::bytes_at;
use refusals::refusal::{Fault, Refusal};
use sheetfile_code::by_letter::run_of_file;
use sheetfile_code::write::RUN_ROOM;
use std::io;

fn main(rt: HostRuntime) -> io::Result<()> {
    let err = rt.stderr();
    if count(&rt, 4) != 3 {
        return err.write_all(
            b"usage: run PROFILE SHEET (the letter A or S, and the path of a sheet file)\n",
        );
    }
    let mut room = [0u8; LONG];
    let Some(file) = read_file(&rt, err, b"run", 2, &mut room)? else {
        return Ok(());
    };
    if file.len() == LONG {
        return err.write_all(b"run: the sheet file has more than 65,535 bytes\n");
    }
    let mut run = [0u8; RUN_ROOM];
    match run_by(letter(&rt), file, &mut run) {
        Ok(bytes) => rt.stdout().write_all(bytes),
        Err(fault) => say_refused(&err, fault),
    }
}

// The run, under the profile that the letter names; 12 where there is not one letter.
fn run_by<'a>(letter: Option<u8>, file: &[u8], run: &'a mut [u8]) -> Result<&'a [u8], Fault> {
    let letter = letter.ok_or(Refusal::WrongLetter)?;
    let count = run_of_file(letter, file, run, 0)?;
    // bytes_at and no slice: that what was written is within its room would need a proof here
    Ok(bytes_at(run, 0, count))
}
