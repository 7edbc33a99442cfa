// What a line asks of an end of the gigabit fibre channel: the calls on it, and the fields that dump and set name.
#![tactic(auto)]

pub mod call;
pub mod fields;
