// The record of an end. Each function writes its part behind what is there already: its promise says what the area
// begins with, up to the part's end.
ghost use Rattle.std.specs.Prelude.{◌≡◌, ◌++◌, ◌+◌, ◌*◌, ◌≤◌, length, take};
ghost use Rattle.receiver.specs.Counting.{listed};
ghost use Rattle.recordspec.specs.Record.{size, size_one, size_two, version, head_of, record_of, newer, two, twos};
ghost use Rattle.recordspec.specs.Record.{sender_bytes, outbox_bytes, collector_bytes, heard_bytes, inbox_bytes};

use crate::{CURRENT, SIZE};
use end::{End, Outbox, Sender};
use receiver::{Collector, Counts, Heard, Inbox};

// The whole record.
pub fn put_end(area: &mut [u8; SIZE], end: End)
    ensures { area.new ≡ record_of end }
{
    put_head(area);
    put_sender(area, end.sender);
    put_outbox(area, end.outbox);
    put_collector(area, end.collector);
    put_heard(area, end.heard);
    put_inbox(area, end.inbox);
    put_counts(area, end.counts);
    put_presence(area, end.presence);
}

// A record of before as one of now: its bytes behind the head, without the bool at 71, and zeros for what came later.
pub fn put_newer(area: &mut [u8; SIZE], old: &[u8])
    requires size_one_in_bounds { size_one ≤ length old.now }
    requires len_bound { length old.now ≤ size_two }
    ensures { area.new ≡ newer old.now }
{
    put_head(area);
    put(area, 3, &old[3..71]);
    put_each(area, 71, &old[72..]);
    area[old.len() - 1..].fill(0);
}

fn put_head(area: &mut [u8; SIZE])
    ensures { take 3 area.new ≡ head_of size version }
{
    let [high, low] = (SIZE as u16).to_be_bytes();
    put(area, 0, &[high, low, CURRENT.number]);
}

fn put_sender(area: &mut [u8; SIZE], sender: Sender)
    ensures { take 32 area.new ≡ take 3 area.old ++ sender_bytes sender }
{
    let rest = [
        sender.position,
        u8::from(sender.toggle),
        u8::from(sender.ready),
        sender.health,
        sender.loaded,
    ];
    put_numbers(area, 3, sender.symbols);
    put(area, 27, &rest);
}

fn put_outbox(area: &mut [u8; SIZE], outbox: Outbox)
    ensures { take 46 area.new ≡ take 32 area.old ++ outbox_bytes outbox }
{
    let first = [
        u8::from(outbox.pending),
        u8::from(outbox.toggle),
        u8::from(outbox.received),
        u8::from(outbox.confirmed),
        outbox.number,
        u8::from(outbox.ping),
    ];
    put(area, 32, &first);
    put(area, 38, &outbox.bytes);
}

fn put_collector(area: &mut [u8; SIZE], collector: Collector)
    ensures { take 71 area.new ≡ take 46 area.old ++ collector_bytes collector }
{
    put_numbers(area, 46, collector.symbols);
    put(area, 70, &[collector.count]);
}

fn put_heard(area: &mut [u8; SIZE], heard: Heard)
    ensures { take 78 area.new ≡ take 71 area.old ++ heard_bytes heard }
{
    let all = [
        heard.health,
        u8::from(heard.got),
        u8::from(heard.ping),
        u8::from(heard.valid),
        u8::from(heard.toggle),
        u8::from(heard.ack),
        u8::from(heard.togack),
    ];
    put(area, 71, &all);
}

fn put_inbox(area: &mut [u8; SIZE], inbox: Inbox)
    ensures { take 91 area.new ≡ take 78 area.old ++ inbox_bytes inbox }
{
    let first = [
        u8::from(inbox.expected),
        u8::from(inbox.acknowledge),
        u8::from(inbox.full),
        u8::from(inbox.toggle),
        inbox.number,
    ];
    put(area, 78, &first);
    put(area, 83, &inbox.bytes);
}

fn put_counts(area: &mut [u8; SIZE], counts: Counts)
    ensures { take 99 area.new ≡ take 91 area.old ++ twos (listed counts) }
{
    put_numbers(
        area,
        91,
        [counts.accepted, counts.crc, counts.marked, counts.early],
    );
}

// The last part: the area ends with it.
fn put_presence(area: &mut [u8; SIZE], presence: u16)
    ensures { area.new ≡ take 99 area.old ++ two presence }
{
    put_numbers(area, 99, [presence]);
}

// Numbers of two bytes each, the high byte first.
fn put_numbers<const N: usize>(area: &mut [u8; SIZE], at: usize, numbers: [u16; N])
    requires { at + 2 * N ≤ size }
    ensures { take (at + 2 * N) area.new ≡ take at area.old ++ twos numbers.entry }
{
    put(area, at, numbers.map(u16::to_be_bytes).as_flattened());
}

// Bytes from a place on.
fn put(area: &mut [u8; SIZE], at: usize, bytes: &[u8])
    requires { at + length bytes.now ≤ size }
    ensures { take (at + length bytes.now) area.new ≡ take at area.old ++ bytes.now }
{
    area[at..at + bytes.len()].copy_from_slice(bytes);
}

// The same, one at a time: a copy whose length only the run knows would be a call of memmove, and C would have to bring
// it. So a part of a fixed length goes by `put`, and one of another by this.
fn put_each(area: &mut [u8; SIZE], at: usize, bytes: &[u8])
    requires { at + length bytes.now ≤ size }
    ensures { take (at + length bytes.now) area.new ≡ take at area.old ++ bytes.now }
{
    for (i, &byte) in bytes.iter().enumerate() {
        area[at + i] = byte;
    }
}
