// The receiving side of an end, document 01's "Taking", apart from the end that keeps it: the collection, what was
// heard, the receive register, the counts and presence, each a struct by value, and the steps over them.
//
// In these files conditions are joined by `&` and `|`, not `&&` and `||`: no part of one can fail, and with no branch
// in it a condition is one equation to its definition.
#![tactic(auto)]

pub mod counting;
pub mod message;
pub mod presence;
pub mod taking;

// Request #107: presence lapses with this many symbols after the one that completes an accepted frame.
pub const LASTING: u16 = 768;

// The collection: the symbols of a frame as they come.
#[derive(Clone, Copy, Debug, Default, PartialEq, Eq)]
pub struct Collector {
    pub symbols: [u16; 12],
    pub count: u8,
}

// What the last accepted frame said.
#[derive(Clone, Copy, Debug, Default, PartialEq, Eq)]
pub struct Heard {
    pub health: u8,
    // PingRx as got, and the partner's PingTx, which is echoed
    pub got: bool,
    pub ping: bool,
    pub valid: bool,
    pub toggle: bool,
    pub ack: bool,
    pub togack: bool,
}

// The receive register, 3.2313 to 3.2317, with the expected toggle and the acknowledge.
#[derive(Clone, Copy, Debug, Default, PartialEq, Eq)]
pub struct Inbox {
    pub expected: bool,
    pub acknowledge: bool,
    pub full: bool,
    pub toggle: bool,
    pub number: u8,
    pub bytes: [u8; 8],
}

// Request #106: how many collections ended with each reason, since reset or since a record without counts was
// upgraded. A count stops at 65,535.
#[derive(Clone, Copy, Debug, Default, PartialEq, Eq)]
pub struct Counts {
    // frames accepted
    pub accepted: u16,
    // collections failed by the CRC
    pub crc: u16,
    // broken by a mark
    pub marked: u16,
    // broken by an early even symbol
    pub early: u16,
}
