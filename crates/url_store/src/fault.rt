use thiserror::Error;

/// Why a URL was not added. The store is as it was.
#[derive(Clone, Copy, Debug, PartialEq, Eq, Error)]
pub enum UrlFault {
    /// The text isn't of the form of a blob URL for the origin.
    #[error("not a blob URL of the origin")]
    Form,
    /// There is a URL with this text.
    #[error("the URL is taken")]
    Taken,
    /// There are as many URLs as a store takes.
    #[error("too many URLs")]
    Full,
    #[error("out of memory")]
    NoMemory,
}

/// The text leads to no blob.
#[derive(Clone, Copy, Debug, PartialEq, Eq, Error)]
#[error("no such URL")]
pub struct NoUrl;
