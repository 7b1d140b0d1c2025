use blob_words::PageNo;

/// A page, and the place of the volume on which its file stands. A torn file that was removed
/// already has none.
#[derive(Clone, Copy, Debug, PartialEq, Eq)]
pub struct Filed {
    pub page: PageNo,
    pub home: Option<u32>,
}
