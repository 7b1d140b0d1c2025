/// Renderers spawned in a session.
pub const MOST_RENDERERS: usize = 1_024;

/// Blobs built in a session.
pub const MOST_BLOBS: usize = 65_536;

/// Segments of one build.
pub const MOST_SEGMENTS: usize = 65_536;

/// Pieces in a session.
pub const MOST_PIECES: usize = 65_536;

/// The sum of the weights of a session's blobs: a blob's weight is the most views that it can have.
pub const MOST_WEIGHT: usize = 4_194_304;

/// Readers open at a time.
pub const MOST_READERS: usize = 4_096;

/// Entries of blob URLs at a time.
pub const MOST_URLS: usize = 16_384;

/// Names of files ever recorded in a session.
pub const MOST_FILES: usize = 16_384;

/// Parts of one build.
pub const MOST_PARTS: usize = 1_024;

/// Data handles in a table.
pub const MOST_HANDLES: usize = 4_096;

/// Lines of a session.
pub const MOST_LINES: usize = 1_048_576;

/// Bytes of a line, without its line feed.
pub const LONGEST_LINE: usize = 1_048_576;

/// Bytes of a page that one call appends to its file.
pub const LONGEST_APPEND: usize = 65_536;
