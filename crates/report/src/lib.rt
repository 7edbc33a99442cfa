// Whole tile reports, request #110: a layer above the ends that sees only their promise. A report is a block of 128
// bytes; it goes as sixteen messages, and number n carries bytes 8n to 8n + 7. The hosts are structs by value: each
// step takes the old one and gives the next one, with what happened. Any host and any end may come in.
#![tactic(auto)]

mod part;
mod sending;
mod taking;

use answer::Answer;
use end::End;

// How many bytes a block has.
pub const BLOCK: usize = 128;

// How many messages carry a block.
pub const PARTS: u8 = 16;

// The sending host: the block under way, and the number that is next. From 16 on no block is under way.
#[derive(Clone, Copy)]
pub struct SendingHost {
    pub block: [u8; 128],
    pub next: u8,
}

// The taking host: the part block, and the number in turn.
#[derive(Clone, Copy)]
pub struct TakingHost {
    pub block: [u8; 128],
    pub turn: u8,
}

// What offer gives.
#[derive(Clone, Copy)]
pub struct Offered {
    pub answer: Answer,
    pub host: SendingHost,
}

// What a sending host's step was.
#[derive(Clone, Copy, Debug, PartialEq, Eq)]
pub enum Push {
    // no block is under way
    Idle,
    // a message is still pending
    Waits,
    // the end refused a write
    Refused(Answer),
    // the message of that number was accepted
    Part(u8),
}

// What push gives.
#[derive(Clone, Copy)]
pub struct Pushed {
    pub what: Push,
    pub host: SendingHost,
    pub end: End,
}

// What a message is to a taking host.
#[derive(Clone, Copy, Debug, PartialEq, Eq)]
pub enum Take {
    // the message of that number stands in the part block
    Part(u8),
    // that number was out of turn, and is not 0
    Out(u8),
    // the last one: the block is whole
    Whole,
}

// What take gives: the block that is handed over, 128 zero bytes where none is, as `take_of` says of each step.
#[derive(Clone, Copy)]
pub struct Taken {
    pub what: Take,
    pub block: [u8; 128],
    pub host: TakingHost,
}

// What a taking host's step was.
#[derive(Clone, Copy, Debug, PartialEq, Eq)]
pub enum Pull {
    // the end refused a read
    Refused(Answer),
    // no message was there
    Empty,
    // a message was taken
    Took(Take),
}

// What pull gives: the block that is handed over, 128 zero bytes where none is.
#[derive(Clone, Copy)]
pub struct Pulled {
    pub what: Pull,
    pub block: [u8; 128],
    pub host: TakingHost,
    pub end: End,
}
