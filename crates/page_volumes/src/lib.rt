//! Several volumes of page files behind the trait of one disk.
#![tactic(auto)]

// Contracts see the core of the volumes through these.
pub mod array;
pub mod bounds;
pub mod boxed;
pub mod filed;
pub mod files;
pub mod folder;
pub mod incoming;
pub mod log;
pub mod members;
pub mod memory;
pub mod place;
pub mod places;
pub mod shelf;
pub mod stored;
pub mod volume;
pub mod volumes;
pub mod writing;

pub use boxed::BoxedVolume;
pub use folder::FolderVolume;
pub use memory::MemoryVolume;
pub use volume::Volume;
pub use volumes::Volumes;
