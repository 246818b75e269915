// Parts of a lent slice.
ghost use Rattle.std.specs.Prelude.{◌≡◌};
ghost use Rattle.lent.specs.Placed.{bytes_at, last_bytes};

// The bytes at a place, as many as asked for: a part of what is lent. Where they are not all there, none.
#[tactic(auto, unfolding(crate::specs::Placed::bytes_at))]
pub fn bytes_at(bytes: &[u8], at: usize, length: usize) -> &[u8]
    ensures { result.now ≡ bytes_at bytes.now at length }
{
    bytes
        .get(at..)
        .and_then(|rest| rest.get(..length))
        .unwrap_or(&bytes[..0])
}

// The last bytes of those that were kept, as many as asked for: of a live port, after the answer frame, the frame.
// Where fewer are kept, none.
#[tactic(auto, unfolding(crate::specs::Placed::last_bytes))]
pub fn last_bytes(kept: &[u8], count: usize) -> &[u8]
    ensures { result.now ≡ last_bytes kept.now count }
{
    kept.len()
        .checked_sub(count)
        .and_then(|start| kept.get(start..))
        .unwrap_or(&kept[..0])
}
