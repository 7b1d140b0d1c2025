ghost use Rattle.std.specs.Prelude.{◌≡◌, ◌≤◌, ◌<◌, ◌^◌, sum};
ghost use Rattle.transport_plan.specs.Spans.{piece_count};

/// The number of pieces of parts of these lengths, each cut at the multiples of `page` from
/// its own start.
pub fn pieces_of(parts: &[u64], page: u64) -> u64
    requires sum { sum parts.now ≤ 2 ^ 62 }
    requires page { 0 < page }
    ensures { result ≡ piece_count page parts.now }
{
    let mut count = 0;
    for len in parts {
        count += len.div_ceil(page);
    }
    count
}
