/// The version of a session, told by its first line.
#[derive(Clone, Copy, Debug, PartialEq, Eq)]
pub enum Version {
    /// The first line is a `limits` line.
    One,
    /// The first line is a `limits2` line.
    Two,
}
