//! Tests of `store_reach`: each of its calls on a few blobs.
#![tactic(auto)]

#[cfg(test)]
mod blobs;
#[cfg(test)]
mod counts;
#[cfg(test)]
mod lives;
