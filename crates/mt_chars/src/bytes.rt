//! The bytes of a text, by their places.
ghost use Rattle.std.specs.Prelude.{◌≡◌, ◌-◌, drop, slice_index, take};

/// The byte at a place, and 0 from the end on.
pub fn byte_at(rest: &[u8], at: usize) -> u8
    ensures byte { result ≡ slice_index rest.now at }
{
    rest.get(at).copied().unwrap_or(0)
}

/// The bytes of a range, as far as they are there.
pub fn part(bytes: &[u8], start: usize, end: usize) -> &[u8]
    ensures bytes { result.now ≡ take (end - start) (drop start bytes.now) }
{
    let end = end.min(bytes.len());
    let start = start.min(end);
    &bytes[start..end]
}
