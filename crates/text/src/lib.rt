// Lines, words, numbers and printing, on slices that the caller lends: what the consoles and the reader of captures
// share. Nothing here reads or writes; crate console does.
#![tactic(auto)]

pub mod fault;
pub mod lines;
pub mod lists;
pub mod numbers;
pub mod output;
pub mod words;
