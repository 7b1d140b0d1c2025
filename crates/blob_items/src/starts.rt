ghost use Rattle.std.specs.Prelude.{◌≡◌, ◌+◌, ◌-◌, ◌^◌, ◌<◌, ◌≤◌, ◌++◌, true, false, length, nat_le, vec_len};
ghost use Rattle.std.specs.List.Sorted.{IsPartitionedBy, IsPartitionPoint};
ghost use Rattle.std.specs.Vec.{vec_capacity};
ghost use Rattle.blob_items.specs.Cells.{total};
ghost use Rattle.blob_items.specs.Starts.{starts_from};

use crate::view::View;

/// How many of the starts, which rise, are not behind the place `off`.
pub fn begun(starts: &[u64], off: u64) -> usize
    requires { IsPartitionedBy (λ start. nat_le start off) starts.now }
    ensures bound { result ≤ length starts.now }
    ensures point { IsPartitionPoint (λ start. nat_le start off ≡ true)
        (λ start. nat_le start off ≡ false) starts.now result }
{
    starts.partition_point(|start| *start <= off)
}

/// Puts the starts of views at the end, for which there is room. The first stands at `from`.
pub fn push_starts(starts: &mut Vec<u64>, from: u64, views: &[View])
    requires room { vec_len starts.old + length views.now ≤ vec_capacity starts.old }
    requires fits { from + total views.now ≤ 2 ^ 64 - 1 }
    ensures { starts.new.items ≡ starts.old.items ++ starts_from from views.now }
{
    let mut place = from;
    for view in views {
        starts.push(place).unwrap();
        place += view.len;
    }
}
