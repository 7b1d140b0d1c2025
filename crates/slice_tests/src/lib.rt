//! Tests of the File API's rules for slices and types, over tables of worked values.
#![tactic(auto)]

#[cfg(test)]
mod kinds;
#[cfg(test)]
mod ranges;
