//! The blob URLs of a session.
#![tactic(auto)]

pub mod fault;
mod form;
mod owners;
pub mod store;
mod texts;
pub mod url;
mod url_map;

pub use fault::{NoUrl, UrlFault};
pub use store::UrlStore;
