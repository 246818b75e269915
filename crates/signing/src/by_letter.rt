use sheet::sheet::Sheet;
use tracker::tracker::Tracker;

// A sheet file held against a capture of answers: whether its lines agree with them, and what that goes by, which is
// the tracker that the capture was fed to and the file's lines.
#[derive(Clone, Copy, Debug, PartialEq, Eq)]
pub struct HeldFile {
    pub agrees: bool,
    pub tracker: Tracker,
    pub sheet: Sheet,
}
