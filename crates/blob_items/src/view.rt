ghost use Rattle.std.specs.Prelude.{◌+◌, ◌-◌, ◌^◌, ◌<◌, ◌≤◌};

/// A range of bytes of an item, never empty.
#[derive(Clone, Copy, Debug, PartialEq, Eq)]
pub struct View {
    /// The slot of the item.
    pub slot: usize,
    /// Where the range begins, in bytes from the item's first one.
    pub off: u64,
    /// The number of bytes.
    pub len: u64,
    ghost some: { 0 < len },
    ghost fits: { off + len ≤ 2 ^ 64 - 1 },
}
