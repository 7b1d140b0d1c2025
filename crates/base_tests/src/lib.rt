//! Tests of the base crates: copies of names, shares, uses, the quota, plans, segments, views and
//! the first number that is small enough.
#![tactic(auto)]

#[cfg(test)]
mod copies;
#[cfg(test)]
mod fits;
#[cfg(test)]
mod plans;
#[cfg(test)]
mod quota;
#[cfg(test)]
mod recent;
#[cfg(test)]
mod segments;
#[cfg(test)]
mod shares;
#[cfg(test)]
mod views;
