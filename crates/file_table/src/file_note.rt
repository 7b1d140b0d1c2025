ghost use Rattle.std.specs.Prelude.{◌≡◌, None};

use blob_words::Octets;

/// What the table knows of a name.
#[derive(Debug, Drop)]
pub struct FileNote {
    /// The last change stamp that was taken for it.
    pub last: u64,
    /// The content recorded at that stamp; none once the file is gone.
    pub bytes: Option<Octets>,
}

impl FileNote {
    /// Lets the content go.
    pub fn clear(&mut self)
        ensures { self.new ≡ record self.old { bytes = None } }
    {
        self.bytes = None;
    }
}

/// The state in which a file is recorded.
#[derive(Clone, Copy, Debug, PartialEq, Eq)]
pub struct FileState {
    /// Its change stamp.
    pub stamp: u64,
    /// Its length in bytes.
    pub len: u64,
}
