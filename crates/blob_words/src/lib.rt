//! Names, numbers, limits and lists that every crate of the blob store speaks of.
#![tactic(auto)]

pub mod bounds;
pub mod bytes;
pub mod counted;
pub mod fault;
pub mod file_name;
pub mod limit_fault;
pub mod limits;
pub mod list;
pub mod name;
pub mod number;
pub mod origin;
pub mod plan;
pub mod status;
pub mod tally;
pub mod text;
pub mod url_text;
pub mod version;

pub use bytes::zeros;
pub use counted::Counted;
pub use fault::{Failed, NameFault, NoMemory};
pub use file_name::FileName;
pub use limit_fault::{Field, LimitFault};
pub use limits::Limits;
pub use list::{ItemList, Octets, Octets64, PieceList};
pub use name::BlobName;
pub use number::{JobNo, PageNo, PieceNo, ReaderId, RendererId};
pub use origin::Origin;
pub use plan::Plan;
pub use status::Status;
pub use tally::Tally;
pub use text::{Text, TextRule};
pub use url_text::UrlText;
pub use version::Version;
