ghost use Rattle.std.specs.Prelude.{◌≡◌, ◌^◌, ◌<◌, length};
ghost use Rattle.store_reach.specs.Counts.{tally};
ghost use Rattle.store_reach.specs.Reach.{reached};

use crate::walk::window_from;
use blob_registry::Registry;
use blob_words::Tally;
use item_shares::Shares;
use page_files::PageFiles;
use quota_queue::Quota;

// How many pieces are reached.
fn count_reached(registry: &Registry, shares: &Shares) -> u32
    requires { length (reached registry.now shares.now) < 2 ^ 32 }
    ensures { result ≡ length (reached registry.now shares.now) }
{
    let mut count = 0;
    let mut start = 0;
    loop {
        let window = window_from(registry, shares, start);
        count += window.count();
        match window.next() {
            Some(next) => start = next,
            None => return count as u32,
        }
    }
}

/// The four numbers of what a store holds, counted anew. It takes no memory.
pub fn tally_of(registry: &Registry, shares: &Shares, pages: &PageFiles, quota: &Quota) -> Tally
    requires { length (reached registry.now shares.now) < 2 ^ 32 }
    ensures { result ≡ tally registry.now shares.now pages.now quota.now }
{
    Tally {
        pieces: count_reached(registry, shares),
        memory: quota.used(),
        files: pages.files(),
        disk: pages.charged(),
    }
}
