// The listing of an input given out piece by piece, since no buffer of a fixed size holds each: where a listing goes on and
// what a piece is (`piece`), and what a line shows of a message (`event`). `listing_code` gives the pieces out.
#![tactic(auto)]

pub mod event;
pub mod piece;
