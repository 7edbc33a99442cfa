// The end of a record.
ghost use Rattle.std.specs.Prelude.{◌≡◌, ◌+◌, ◌≤◌, ◌<◌};
ghost use Rattle.recordspec.specs.Record.{size, end_of, two_at, bytes_at, pairs};
ghost use Rattle.recordspec.specs.Record.{sender_of, outbox_of, collector_of, heard_of, inbox_of, counts_of, presence_of};

use crate::SIZE;
use end::{End, Outbox, Sender};
use receiver::{Collector, Counts, Heard, Inbox};
use std::array;

// The end of a record, part by part.
pub fn end_of(area: &[u8; SIZE]) -> End
    ensures { result ≡ end_of area.now }
{
    End {
        sender: sender_of(area),
        outbox: outbox_of(area),
        collector: collector_of(area),
        heard: heard_of(area),
        inbox: inbox_of(area),
        counts: counts_of(area),
        presence: presence_of(area),
    }
}

fn sender_of(area: &[u8; SIZE]) -> Sender
    ensures { result ≡ sender_of area.now }
{
    Sender {
        symbols: symbols_at(area, 3),
        position: area[27],
        toggle: area[28] == 1,
        ready: area[29] == 1,
        health: area[30],
        loaded: area[31],
    }
}

fn outbox_of(area: &[u8; SIZE]) -> Outbox
    ensures { result ≡ outbox_of area.now }
{
    Outbox {
        pending: area[32] == 1,
        toggle: area[33] == 1,
        received: area[34] == 1,
        confirmed: area[35] == 1,
        number: area[36],
        ping: area[37] == 1,
        bytes: eight_at(area, 38),
    }
}

fn collector_of(area: &[u8; SIZE]) -> Collector
    ensures { result ≡ collector_of area.now }
{
    Collector {
        symbols: symbols_at(area, 46),
        count: area[70],
    }
}

fn heard_of(area: &[u8; SIZE]) -> Heard
    ensures { result ≡ heard_of area.now }
{
    Heard {
        health: area[71],
        got: area[72] == 1,
        ping: area[73] == 1,
        valid: area[74] == 1,
        toggle: area[75] == 1,
        ack: area[76] == 1,
        togack: area[77] == 1,
    }
}

fn inbox_of(area: &[u8; SIZE]) -> Inbox
    ensures { result ≡ inbox_of area.now }
{
    Inbox {
        expected: area[78] == 1,
        acknowledge: area[79] == 1,
        full: area[80] == 1,
        toggle: area[81] == 1,
        number: area[82],
        bytes: eight_at(area, 83),
    }
}

fn counts_of(area: &[u8; SIZE]) -> Counts
    ensures { result ≡ counts_of area.now }
{
    Counts {
        accepted: two_at(area, 91),
        crc: two_at(area, 93),
        marked: two_at(area, 95),
        early: two_at(area, 97),
    }
}

// What is left of presence.
pub fn presence_of(area: &[u8; SIZE]) -> u16
    ensures { result ≡ presence_of area.now }
{
    two_at(area, 99)
}

// A number of two bytes, the high byte first.
fn two_at(area: &[u8; SIZE], at: usize) -> u16
    requires { at + 1 < size }
    ensures { result ≡ two_at area.now at }
{
    u16::from_be_bytes([area[at], area[at + 1]])
}

// Twelve symbols, likewise.
fn symbols_at(area: &[u8; SIZE], at: usize) -> [u16; 12]
    requires { at + 24 ≤ size }
    ensures { result ≡ pairs (bytes_at area.now at 24) }
{
    array::from_fn(|i| two_at(area, at + 2 * i))
}

// Eight bytes.
fn eight_at(area: &[u8; SIZE], at: usize) -> [u8; 8]
    requires { at + 8 ≤ size }
    ensures { result ≡ bytes_at area.now at 8 }
{
    array::from_fn(|i| area[at + i])
}
