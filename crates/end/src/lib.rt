// One end of the OAM channel, document 01: a struct by value of parts. Each call takes the old end and gives the next
// one with its answer; any end may come in, and one that answer 1 meets comes back as it was.
//
// In these files conditions are joined by `&` and `|`, not `&&` and `||`: no part of one can fail, and with no branch
// in it a condition is one equation to its definition.
#![tactic(auto)]

mod good;
mod reading;
mod registers;
mod sending;
mod taking;
mod writing;

use answer::Answer;
use frame::reason::Reason;
use receiver::{Collector, Counts, Heard, Inbox};

// The sending side: the twelve symbols being sent and where the next slot is.
#[derive(Clone, Copy, Default)]
pub struct Sender {
    pub symbols: [u16; 12],
    pub position: u8,
    // the sending toggle
    pub toggle: bool,
    pub ready: bool,
    // the health to send, and the one loaded at the last frame start
    pub health: u8,
    pub loaded: u8,
}

// The transmit registers, 3.2308 to 3.2312.
#[derive(Clone, Copy, Default)]
pub struct Outbox {
    pub pending: bool,
    // the register toggle
    pub toggle: bool,
    // Received, and the received toggle
    pub received: bool,
    pub confirmed: bool,
    pub number: u8,
    // PingTx
    pub ping: bool,
    pub bytes: [u8; 8],
}

// The whole end: what it sends with, and the receiving side.
#[derive(Clone, Copy, Default)]
pub struct End {
    pub sender: Sender,
    pub outbox: Outbox,
    pub collector: Collector,
    pub heard: Heard,
    pub inbox: Inbox,
    pub counts: Counts,
    // how many more symbols without an accepted frame until presence lapses; 0 where the partner is absent
    pub presence: u16,
}

// What the calls give. The next end comes out with the answer, where a call is refused too, as document 01 has it: so
// these are no Results.

// What send gives: the symbol of this slot.
#[derive(Clone, Copy)]
pub struct Sent {
    pub answer: Answer,
    pub symbol: u16,
    pub end: End,
}

// What read gives: the register's value.
#[derive(Clone, Copy)]
pub struct Read {
    pub answer: Answer,
    pub value: u16,
    pub end: End,
}

// What take gives: what became of the collection.
#[derive(Clone, Copy)]
pub struct Taken {
    pub answer: Answer,
    pub reason: Reason,
    pub end: End,
}

// What write and set health give.
#[derive(Clone, Copy)]
pub struct Next {
    pub answer: Answer,
    pub end: End,
}
