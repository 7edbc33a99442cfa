// Blocks and ends of the gigabit fibre channel as numbers: a block as a line of a console has it, and the fields of an
// end, as dump prints them and set writes them.
#![tactic(auto)]

pub mod block;
pub mod fields;
