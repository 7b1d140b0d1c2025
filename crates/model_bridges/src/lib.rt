//! The types of the store's parts, read as those of the model.
#![tactic(auto)]
