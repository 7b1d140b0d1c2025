//! Tests of several volumes as one disk, over memory and over real folders.
#![tactic(auto)]

#[cfg(test)]
mod asks;
#[cfg(test)]
mod calls;
#[cfg(test)]
mod folders;
#[cfg(test)]
mod sixteen;
#[cfg(test)]
mod two;
#[cfg(test)]
mod watched;
