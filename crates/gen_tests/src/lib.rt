//! Tests of generated sessions, against texts that another program made by the same rules.
#![tactic(auto)]

#[cfg(test)]
mod sessions;
