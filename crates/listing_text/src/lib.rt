// What the listing of an input is, to the byte, as a definition; and `asked`, which reads what an input asks for: its two
// letters, and whether the capture behind them is short enough.
#![tactic(auto)]

pub mod asked;
