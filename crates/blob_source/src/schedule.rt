ghost use Rattle.std.specs.Prelude.{◌≡◌};
ghost use Rattle.blob_source.specs.Faults.{next_count};
ghost use Rattle.blob_source.specs.Memory.{is_listed};

use blob_words::Octets64;

/// Which calls of an object over memory are to fail, and how many calls came, as far as a `u64`
/// counts.
#[derive(Debug, Drop)]
pub struct Schedule {
    failing: Octets64,
    calls: u64,
}

impl Schedule {
    /// The calls are numbered from 0, and those in `failing` fail.
    pub fn new(failing: Octets64) -> Schedule
        ensures { result ≡ record { failing = failing; calls = 0 } }
    {
        Schedule { failing, calls: 0 }
    }

    /// Counts a call, and answers whether it is to fail.
    pub fn fails_next(&mut self) -> bool
        ensures fails { result ≡ is_listed self.old.failing self.old.calls }
        ensures counted { self.new ≡ record self.old { calls = next_count self.old.calls } }
    {
        let fails = self.failing.as_slice().contains(&self.calls);
        self.calls = self.calls.saturating_add(1);
        fails
    }
}
