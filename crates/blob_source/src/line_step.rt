/// What a look for the next line of a source came to.
#[derive(Clone, Copy, Debug, PartialEq, Eq)]
pub enum LineStep {
    /// A line of at most 2^20 bytes, and its line feed.
    Line,
    /// The source ended, with no byte after the last line.
    End,
    /// The source ended after 1 to 2^20 bytes without a line feed.
    Unended,
    /// 2^20 + 1 bytes without a line feed came.
    TooLong,
    /// The source failed.
    ReadFault,
}
