// One end of the gigabit fibre channel, request #109: a struct by value of parts. Each call takes the old end and gives
// the next one with its answer; any end may come in, and one that answer 1 meets comes back as it was.
//
// In these files conditions are joined by `&` and `|`, not `&&` and `||`: no part of one can fail, and with no branch
// in it a condition is one equation to its definition.
#![tactic(auto)]

mod good;
mod reading;
mod sending;
mod taking;
mod words;
mod writing;

use answer::Answer;

// The largest control value: twelve bits.
pub const LARGEST: u16 = 4095;

// What the host writes, words 0 to 8: a message of 140 bits, the request to send it, and what was last heard of the
// partner's toggles. (MSGT, bit 12 of word 0, is the sent block's.)
#[derive(Clone, Copy, Default)]
pub struct Transmit {
    pub txreq: bool,
    pub phyt: bool,
    pub mert: bool,
    pub control: u16,
    pub words: [u16; 8],
}

// What goes over the fibre: the message being sent, its toggle, and two toggles for the messages of the other way, the
// last one received and the last one read by the host.
#[derive(Clone, Copy, Default)]
pub struct Block {
    pub msgt: bool,
    pub phyt: bool,
    pub mert: bool,
    pub control: u16,
    pub words: [u16; 8],
}

// What the host reads, words 9 to 17: the message received last, and whether it has yet to be read.
#[derive(Clone, Copy, Default)]
pub struct Receive {
    pub rxval: bool,
    pub toggle: bool,
    pub control: u16,
    pub words: [u16; 8],
}

// The whole end. It sends the same block again and again, until a request brings the next message into it.
#[derive(Clone, Copy, Default)]
pub struct End {
    pub transmit: Transmit,
    pub sent: Block,
    pub receive: Receive,
}

// What the calls give. The next end comes out with the answer, where a call is refused too: so these are no Results.

// What send gives: the block.
#[derive(Clone, Copy)]
pub struct Sent {
    pub answer: Answer,
    pub block: Block,
    pub end: End,
}

// What read gives: the word's value.
#[derive(Clone, Copy)]
pub struct Read {
    pub answer: Answer,
    pub value: u16,
    pub end: End,
}

// What take and write give.
#[derive(Clone, Copy)]
pub struct Next {
    pub answer: Answer,
    pub end: End,
}
