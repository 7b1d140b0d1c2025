use thiserror::Error;

/// Why a text was not read.
#[derive(Clone, Copy, Debug, PartialEq, Eq, Error)]
pub enum TextFault {
    /// The text spells no value.
    #[error("not the text of such a value")]
    Form,
    /// There was no memory for the value.
    #[error("out of memory")]
    Memory,
}
