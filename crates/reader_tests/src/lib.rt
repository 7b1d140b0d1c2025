//! Tests of `range_reader`: a list of views on items of every kind, read in steps.
#![tactic(auto)]

#[cfg(test)]
mod driver;
#[cfg(test)]
mod kinds;
#[cfg(test)]
mod lie;
#[cfg(test)]
mod many;
