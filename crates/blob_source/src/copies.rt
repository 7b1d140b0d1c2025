ghost use Rattle.std.specs.Prelude.{◌≡◌, ◌≤◌, length, take};

// Copies the first `count` bytes of one slice over those of the other.
pub fn copy_front(from: &[u8], to: &mut [u8], count: usize)
    requires from { count ≤ length from.now }
    requires to { count ≤ length to.old }
    ensures front { take count to.new ≡ take count from.now }
{
    to[..count].copy_from_slice(&from[..count]);
}
