//! Tests of the registry: scripts of calls with their answers, and very many passes.
#![tactic(auto)]

pub mod bed;
#[cfg(test)]
mod ends;
#[cfg(test)]
mod many;
#[cfg(test)]
mod needs;
mod script;
#[cfg(test)]
mod shared;
