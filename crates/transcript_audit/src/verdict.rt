/// What a judge says of the next group of a transcript.
#[derive(Clone, Copy, Debug, PartialEq, Eq)]
pub enum Verdict {
    /// The groups so far with this one are a legal transcript.
    Legal,
    /// They aren't.
    Illegal,
    /// The line builds a blob with which all blobs have more cells than are judged.
    Large,
}
