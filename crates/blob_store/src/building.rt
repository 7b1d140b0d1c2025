//! What a line that builds puts into the store: items under slots, the recipe of its parts, an
//! entry and a row.

mod adding;
mod admitting;
mod claiming;
pub mod entering;
mod homes;
pub mod kind;
mod law;
pub mod laying;
mod own;
mod putting;
mod ranges;
mod recipe;
