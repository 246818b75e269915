ghost use Rattle.std.specs.Prelude.{◌≡◌, [], ◌<◌, get_or};
ghost use Rattle.row.specs.Table.{table, row_count, row_of};
ghost use Rattle.row.specs.Kind.{kind_of, HasKinds, row_at};
ghost use Rattle.row.specs.Computed.{codes_if, row_from, own};

use row::profile::Profile;
use row::table::{Codes, ROW_COUNT, Row};

// The numbers of each row: profile, code, zones; which of its answer codes a command sets (0 none, 1 those
// of the first range, 2 of both); the answer codes, from and to, twice (1 to 0: none); request; F1 and
// F2 (1 up and down, 2 on and off) or 02 (3 toggle); pair; signed; off; sheet. Document 01 names this form: a
// "constant table".
const ROWS: [[u8; 14]; ROW_COUNT] = [
    [b'A', 0x0F, 1, 0, 0x00, 0x01, 1, 0, 1, 0, 0, 0, 0, 0], // direct
    [b'A', 0x10, 1, 0, 0x00, 0x08, 1, 0, 1, 0, 0, 0, 0, 0], // decode 2ch
    [b'A', 0x11, 1, 0, 0x00, 0x05, 1, 0, 1, 0, 0, 0, 0, 0], // decode MCH
    [b'A', 0x37, 3, 0, 0x00, 0x02, 1, 0, 1, 2, 0, 0, 0, 0], // room EQ
    [b'A', 0x38, 3, 1, 0x00, 0x02, 1, 0, 1, 0, 0, 0, 0, 1], // Dolby Volume
    [b'A', 0x39, 3, 2, 0x00, 0x0A, 0xFF, 0xFF, 1, 1, 0, 0, 1, 1], // Leveller
    [b'A', 0x3A, 3, 2, 0x00, 0x0F, 0x80, 0x8F, 1, 1, 0, 1, 0, 1], // calibration offset, dB
    [b'A', 0x44, 3, 0, 0x00, 0x08, 1, 0, 1, 0, 0, 0, 0, 0], // sample rate
    [b'A', 0x45, 3, 2, 0x00, 0x00, 0x80, 0xA8, 1, 1, 0, 1, 0, 1], // sub trim, quarter dB
    [b'A', 0x46, 3, 2, 0x00, 0x0A, 0x80, 0x8A, 1, 1, 0, 1, 0, 1], // picture brightness
    [b'S', 0x0D, 2, 1, 0x00, 0x63, 1, 0, 1, 1, 0, 0, 0, 1], // volume
    [b'S', 0x0E, 2, 1, 0x00, 0x01, 1, 0, 1, 3, 0, 0, 0, 1], // mute
    [b'S', 0x0F, 1, 0, 0x01, 0x03, 0x05, 0x06, 1, 0, 1, 0, 0, 0], // direct
    [b'S', 0x37, 2, 1, 0x00, 0x06, 0xA0, 0xA0, 1, 0, 0, 0, 0, 0], // room EQ
    [b'S', 0x3B, 2, 0, 0x00, 0x0C, 0x80, 0x8C, 1, 0, 0, 1, 0, 0], // balance
    [b'S', 0x44, 2, 0, 0x00, 0x0A, 1, 0, 1, 0, 0, 0, 0, 0], // sample rate
    [b'S', 0x5A, 2, 0, 0x00, 0x01, 1, 0, 1, 0, 0, 0, 0, 0], // input detect
    [b'S', 0x5B, 2, 2, 0x00, 0x00, 0x02, 0x09, 1, 0, 0, 0, 0, 1], // processor input
    [b'S', 0x5C, 2, 1, 0x00, 0x63, 1, 0, 1, 0, 0, 0, 0, 1], // processor volume
];

// For each command code, in lines of sixteen, the number of the row that profile A has for it: the row's place in
// `ROWS` and one more; 0 for none. Document 02 names this form: "a table of 256 numbers per profile".
const KINDS_A: [[u8; 16]; 16] = [
    [0, 0, 0, 0, 0, 0, 0, 0, 0, 0, 0, 0, 0, 0, 0, 1], // 00 to 0F
    [2, 3, 0, 0, 0, 0, 0, 0, 0, 0, 0, 0, 0, 0, 0, 0], // 10 to 1F
    [0, 0, 0, 0, 0, 0, 0, 0, 0, 0, 0, 0, 0, 0, 0, 0], // 20 to 2F
    [0, 0, 0, 0, 0, 0, 0, 4, 5, 6, 7, 0, 0, 0, 0, 0], // 30 to 3F
    [0, 0, 0, 0, 8, 9, 10, 0, 0, 0, 0, 0, 0, 0, 0, 0], // 40 to 4F
    [0, 0, 0, 0, 0, 0, 0, 0, 0, 0, 0, 0, 0, 0, 0, 0], // 50 to 5F
    [0, 0, 0, 0, 0, 0, 0, 0, 0, 0, 0, 0, 0, 0, 0, 0], // 60 to 6F
    [0, 0, 0, 0, 0, 0, 0, 0, 0, 0, 0, 0, 0, 0, 0, 0], // 70 to 7F
    [0, 0, 0, 0, 0, 0, 0, 0, 0, 0, 0, 0, 0, 0, 0, 0], // 80 to 8F
    [0, 0, 0, 0, 0, 0, 0, 0, 0, 0, 0, 0, 0, 0, 0, 0], // 90 to 9F
    [0, 0, 0, 0, 0, 0, 0, 0, 0, 0, 0, 0, 0, 0, 0, 0], // A0 to AF
    [0, 0, 0, 0, 0, 0, 0, 0, 0, 0, 0, 0, 0, 0, 0, 0], // B0 to BF
    [0, 0, 0, 0, 0, 0, 0, 0, 0, 0, 0, 0, 0, 0, 0, 0], // C0 to CF
    [0, 0, 0, 0, 0, 0, 0, 0, 0, 0, 0, 0, 0, 0, 0, 0], // D0 to DF
    [0, 0, 0, 0, 0, 0, 0, 0, 0, 0, 0, 0, 0, 0, 0, 0], // E0 to EF
    [0, 0, 0, 0, 0, 0, 0, 0, 0, 0, 0, 0, 0, 0, 0, 0], // F0 to FF
];

// The same for profile S.
const KINDS_S: [[u8; 16]; 16] = [
    [0, 0, 0, 0, 0, 0, 0, 0, 0, 0, 0, 0, 0, 11, 12, 13], // 00 to 0F
    [0, 0, 0, 0, 0, 0, 0, 0, 0, 0, 0, 0, 0, 0, 0, 0], // 10 to 1F
    [0, 0, 0, 0, 0, 0, 0, 0, 0, 0, 0, 0, 0, 0, 0, 0], // 20 to 2F
    [0, 0, 0, 0, 0, 0, 0, 14, 0, 0, 0, 15, 0, 0, 0, 0], // 30 to 3F
    [0, 0, 0, 0, 16, 0, 0, 0, 0, 0, 0, 0, 0, 0, 0, 0], // 40 to 4F
    [0, 0, 0, 0, 0, 0, 0, 0, 0, 0, 17, 18, 19, 0, 0, 0], // 50 to 5F
    [0, 0, 0, 0, 0, 0, 0, 0, 0, 0, 0, 0, 0, 0, 0, 0], // 60 to 6F
    [0, 0, 0, 0, 0, 0, 0, 0, 0, 0, 0, 0, 0, 0, 0, 0], // 70 to 7F
    [0, 0, 0, 0, 0, 0, 0, 0, 0, 0, 0, 0, 0, 0, 0, 0], // 80 to 8F
    [0, 0, 0, 0, 0, 0, 0, 0, 0, 0, 0, 0, 0, 0, 0, 0], // 90 to 9F
    [0, 0, 0, 0, 0, 0, 0, 0, 0, 0, 0, 0, 0, 0, 0, 0], // A0 to AF
    [0, 0, 0, 0, 0, 0, 0, 0, 0, 0, 0, 0, 0, 0, 0, 0], // B0 to BF
    [0, 0, 0, 0, 0, 0, 0, 0, 0, 0, 0, 0, 0, 0, 0, 0], // C0 to CF
    [0, 0, 0, 0, 0, 0, 0, 0, 0, 0, 0, 0, 0, 0, 0, 0], // D0 to DF
    [0, 0, 0, 0, 0, 0, 0, 0, 0, 0, 0, 0, 0, 0, 0, 0], // E0 to EF
    [0, 0, 0, 0, 0, 0, 0, 0, 0, 0, 0, 0, 0, 0, 0, 0], // F0 to FF
];

// The row that a profile has for a command.
#[tactic(auto, using(row::proofs::Named::kind_promise, row::proofs::Named::named_at))]
pub fn find_row(profile: Profile, command: u8) -> Option<Row>
    ensures { result ≡ row_of profile command }
{
    let place = usize::from(kind_of(profile, command)).checked_sub(1)?;
    Some(row_from(numbers_at(place), place))
}

// The number of the row that a profile has for a command; 0 for none, as in document 02's "table of 256 numbers per
// profile".
fn kind_of(profile: Profile, command: u8) -> u8
    ensures { result ≡ kind_of profile command }
{
    kind_in_tables(profile, KINDS_A, KINDS_S, command)
}

// The number at a command's code, in the profile's own of two tables. The lines are written out, and in `kind_in_line`
// the places, so that each number is a constant: indexed, the look-up costs a frame nearly thirty instructions more
// (docs/BENCHMARK.md).
#[tactic(auto, using(row::proofs::Named::line_at, lists::proofs::Past::past_all))]
fn kind_in_tables(profile: Profile, a: [[u8; 16]; 16], s: [[u8; 16]; 16], command: u8) -> u8
    requires { HasKinds Profile.A a × HasKinds Profile.S s }
    ensures { result ≡ kind_of profile command }
{
    let low = command % 16;
    let high = command / 16;
    match high {
        0x0 => kind_in_own(profile, a, s, 0x0, low),
        0x1 => kind_in_own(profile, a, s, 0x1, low),
        0x2 => kind_in_own(profile, a, s, 0x2, low),
        0x3 => kind_in_own(profile, a, s, 0x3, low),
        0x4 => kind_in_own(profile, a, s, 0x4, low),
        0x5 => kind_in_own(profile, a, s, 0x5, low),
        0x6 => kind_in_own(profile, a, s, 0x6, low),
        0x7 => kind_in_own(profile, a, s, 0x7, low),
        0x8 => kind_in_own(profile, a, s, 0x8, low),
        0x9 => kind_in_own(profile, a, s, 0x9, low),
        0xA => kind_in_own(profile, a, s, 0xA, low),
        0xB => kind_in_own(profile, a, s, 0xB, low),
        0xC => kind_in_own(profile, a, s, 0xC, low),
        0xD => kind_in_own(profile, a, s, 0xD, low),
        0xE => kind_in_own(profile, a, s, 0xE, low),
        _ => kind_in_own(profile, a, s, 0xF, low),
    }
}

// The number at a line and a place in it, in the profile's own of two tables.
fn kind_in_own(profile: Profile, a: [[u8; 16]; 16], s: [[u8; 16]; 16], line: usize, low: u8) -> u8
    requires { (line < 16) × (low < 16) }
    ensures { result ≡ get_or (get_or (own profile a s) line []) low 0 }
{
    match profile {
        Profile::A => kind_in_line(a[line], low),
        Profile::S => kind_in_line(s[line], low),
    }
}

// The number at a place of a line; written out for the reason that `kind_in_tables` gives.
fn kind_in_line(line: [u8; 16], low: u8) -> u8
    requires { low < 16 }
    ensures { result ≡ get_or line low 0 }
{
    match low {
        0x0 => line[0x0],
        0x1 => line[0x1],
        0x2 => line[0x2],
        0x3 => line[0x3],
        0x4 => line[0x4],
        0x5 => line[0x5],
        0x6 => line[0x6],
        0x7 => line[0x7],
        0x8 => line[0x8],
        0x9 => line[0x9],
        0xA => line[0xA],
        0xB => line[0xB],
        0xC => line[0xC],
        0xD => line[0xD],
        0xE => line[0xE],
        _ => line[0xF],
    }
}

// The numbers of a row. The places are written out, so that the compiler takes the numbers as constants: where it does
// not know the place it builds the whole table in memory, at each call (docs/BENCHMARK.md).
#[tactic(auto, unfolding(row::specs::Table::table))]
fn numbers_at(place: usize) -> [u8; 14]
    requires { place < row_count }
    ensures { Some (row_from result place) ≡ row_at table place }
{
    let rows = ROWS;
    match place {
        0 => rows[0],
        1 => rows[1],
        2 => rows[2],
        3 => rows[3],
        4 => rows[4],
        5 => rows[5],
        6 => rows[6],
        7 => rows[7],
        8 => rows[8],
        9 => rows[9],
        10 => rows[10],
        11 => rows[11],
        12 => rows[12],
        13 => rows[13],
        14 => rows[14],
        15 => rows[15],
        16 => rows[16],
        17 => rows[17],
        _ => rows[18],
    }
}

// The row that its numbers write out, at a place of the table.
fn row_from(numbers: [u8; 14], place: usize) -> Row
    ensures { result ≡ row_from numbers place }
{
    let [
        profile,
        code,
        zones,
        sets,
        low,
        high,
        low2,
        high2,
        request,
        moves,
        pair,
        signed,
        off,
        sheet,
    ] = numbers;
    Row {
        place,
        profile,
        code,
        zones,
        settings: codes_if(sets != 0, low, high),
        settings2: codes_if(sets == 2, low2, high2),
        answers: Codes { low, high },
        answers2: Codes {
            low: low2,
            high: high2,
        },
        request: request == 1,
        steps: moves == 1,
        switch: moves == 2,
        toggle: moves == 3,
        pair: pair == 1,
        signed: signed == 1,
        off: off == 1,
        sheet: sheet == 1,
    }
}

// A range of codes, or none: 1 to 0, which a Codes has for none.
fn codes_if(has: bool, low: u8, high: u8) -> Codes
    ensures { result ≡ codes_if has low high }
{
    if has {
        Codes { low, high }
    } else {
        Codes { low: 1, high: 0 }
    }
}
