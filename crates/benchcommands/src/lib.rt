// What a line asks of the bench: its commands, the calls on an end, and the fields that dump and set name.
#![tactic(auto)]

pub mod bytes;
pub mod call;
pub mod fields;
pub mod lists;
