ghost use Rattle.std.specs.Prelude.{◌≡◌, ◌<◌, ◌≤◌, ◌^◌, ◌+◌};
ghost use Rattle.slice_rule.specs.Range.{position, place_of, slice_of};

/// A position in so many bytes: a negative one counts from the end, and none lies outside.
fn position(size: u64, at: i64) -> u64
    ensures { result ≡ position size at }
{
    let distance = at.unsigned_abs();
    if at < 0 {
        size.saturating_sub(distance)
    } else {
        distance.min(size)
    }
}

/// The position, or `missing` where it is left out.
fn place_of(size: u64, missing: u64, at: Option<i64>) -> u64
    ensures { result ≡ place_of size missing at }
{
    match at {
        None => missing,
        Some(at) => position(size, at),
    }
}

/// Where a slice of a blob of `size` bytes starts, and how many bytes it takes.
pub fn slice_range(size: u64, start: Option<i64>, end: Option<i64>) -> (u64, u64)
    requires { size < 2 ^ 63 }
    ensures span { result ≡ slice_of size start end }
    ensures within { result.0 + result.1 ≤ size }
{
    let from = place_of(size, 0, start);
    let to = place_of(size, size, end);
    (from, to.saturating_sub(from))
}
