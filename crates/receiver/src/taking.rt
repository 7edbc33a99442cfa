// The steps of taking one symbol.
ghost use Rattle.std.specs.Prelude.{◌≡◌, ◌≤◌};
ghost use Rattle.receiver.specs.Receiving.{settled_by, collected, ended_by, said_by, pick_heard, enters, entered};

use crate::message::message_of;
use crate::{Collector, Heard, Inbox};
use frame::reason::Reason;

// Step 1. If the last accepted frame had Valid 0, or the acknowledge is 0, then expected toggle takes that frame's
// Toggle and the acknowledge becomes 0.
pub fn settle(last: Heard, mut inbox: Inbox) -> Inbox
    ensures { result ≡ settled_by last inbox }
{
    let releases = !last.valid | !inbox.acknowledge;
    if releases {
        inbox.expected = last.toggle;
        inbox.acknowledge = false;
        return inbox;
    }
    inbox
}

// Step 2, and the emptying of step 3. A marked symbol empties the collection; an even one starts a new one; an odd one
// is added if the collection is not empty, and as the twelfth it empties it.
pub fn collect(symbol: u16, mut collector: Collector) -> Collector
    requires { collector.count ≤ 11 }
    ensures { result ≡ collected symbol collector }
{
    let count = collector.count;
    let place = usize::from(count);
    if symbol >= frame::MARKED {
        collector.count = 0;
        return collector;
    }
    if frame::parity(symbol) {
        if count == 0 {
            return collector;
        }
        collector.symbols[place] = symbol;
        if count == 11 {
            collector.count = 0;
            return collector;
        }
        collector.count = count + 1;
        return collector;
    }
    collector.symbols[0] = symbol;
    collector.count = 1;
    collector
}

// What becomes of the collection as it was, which the symbol makes `symbols`. A mark or an even symbol breaks one that
// is not empty; at the twelfth symbol the CRC decides (step 3's test).
pub fn reason_of(symbol: u16, before: Collector, symbols: [u16; 12]) -> Reason
    ensures { result ≡ ended_by symbol before.count symbols }
{
    let had = before.count;
    if had == 0 {
        return Reason::Nothing;
    }
    if symbol >= frame::MARKED {
        return Reason::Marked(had);
    }
    if frame::parity(symbol) {
        if had == 11 {
            if frame::crc_right(symbols) {
                return Reason::Accepted;
            }
            return Reason::Crc;
        }
        return Reason::Nothing;
    }
    Reason::Parity(had)
}

// Partner health, both Ping bits, Valid, Toggle, Ack and TogAck are taken from an accepted frame.
pub fn hear(accepted: bool, symbols: [u16; 12], last: Heard) -> Heard
    ensures { result ≡ pick_heard accepted (said_by symbols) last }
{
    if accepted { said_by(symbols) } else { last }
}

// What the twelve symbols say.
fn said_by(symbols: [u16; 12]) -> Heard
    ensures { result ≡ said_by symbols }
{
    let zero = symbols[0];
    let one = symbols[1];
    Heard {
        health: (zero % 4) as u8,
        got: zero / 8 % 2 == 1,
        ping: zero / 4 % 2 == 1,
        valid: one / 128 % 2 == 1,
        toggle: one / 64 % 2 == 1,
        ack: one / 32 % 2 == 1,
        togack: one / 16 % 2 == 1,
    }
}

// Number, bytes and toggle enter the receive register together: it is full, the opposite toggle is expected, the
// acknowledge is 1.
pub fn enter(accepted: bool, symbols: [u16; 12], mut inbox: Inbox) -> Inbox
    ensures { result ≡ entered (enters accepted (said_by symbols) inbox) symbols inbox }
{
    let said = said_by(symbols);
    if enters(accepted, said, inbox) {
        let one = symbols[1];
        let bytes = message_of(symbols);
        let toggle = said.toggle;
        inbox.expected = !toggle;
        inbox.acknowledge = true;
        inbox.full = true;
        inbox.toggle = toggle;
        inbox.number = (one % 16) as u8;
        inbox.bytes = bytes;
        return inbox;
    }
    inbox
}

// A frame was accepted, the receive register is empty, Valid is 1 and Toggle is the expected one.
fn enters(accepted: bool, said: Heard, inbox: Inbox) -> bool
    ensures { result ≡ enters accepted said inbox }
{
    accepted & !inbox.full & said.valid & (said.toggle == inbox.expected)
}
