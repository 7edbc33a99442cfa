// Request #104: an end that the C side keeps, as a record in bytes that it lends to each call. A call looks the record
// over, reads its end, makes the call of crate `end` and writes the next end back. docs/RECORD.md has the offsets.
// Requests #106 and #107: the counts, and the records of before, which an upgrade alone reads.
#![tactic(auto)]

ghost use Rattle.std.specs.Prelude.{◌≡◌, true, false, MatchOption};
ghost use Rattle.end.specs.declared.End.{End};
ghost use Rattle.recordspec.specs.Record.{refused, end_of};
ghost use Rattle.recordspec.specs.Results.{sending, taking, reading, writing, setting_health, presenting};
ghost use Rattle.record.specs.Calls.{through, Made, told_by, filled, resetting, upgrading, counts_by};

use answer::Answer;
use end::{End, Next, Read};
use frame::reason::Reason;
use receiver::Counts;
use recordbytes::reading::end_of;
use recordbytes::refusing::{refused, refused_before};
use recordbytes::writing::{put_end, put_newer};
use recordbytes::{ONE, SIZE, TWO};

// What a call gives: its answer, and the symbol of a send, the value of a read, 1 for present; else 0. C gets both,
// whatever the answer is.
#[derive(Clone, Copy)]
pub struct Reply {
    pub answer: Answer,
    pub value: u16,
}

// What a take gives that says why: its answer, and what became of the collection.
#[derive(Clone, Copy)]
pub struct Told {
    pub answer: Answer,
    pub reason: Reason,
}

// What asking for the counts gives: the answer, and the counts, all 0 where it is refused.
#[derive(Clone, Copy)]
pub struct Counted {
    pub answer: Answer,
    pub counts: Counts,
}

// Answer 11, and answer 0 with nothing to say.
const BAD_RECORD: Reply = Reply {
    answer: Answer::BadRecord,
    value: 0,
};

const DONE: Reply = Reply {
    answer: Answer::Done,
    value: 0,
};

// Fills an area of the right size with the record of an end just reset. What was there does not matter.
pub fn reset(area: &mut [u8]) -> Reply
    ensures value { result ≡ (resetting area.old).reply }
    ensures area_after { area.new ≡ (resetting area.old).bytes }
{
    fill(area, End::reset())
}

// Fills an area of the right size with the record of the end that an old one, of version 1 or 2, is the record of. The
// old one is only read.
pub fn upgrade(old: &[u8], area: &mut [u8]) -> Reply
    ensures value { result ≡ (upgrading old.now area.old).reply }
    ensures area_after { area.new ≡ (upgrading old.now area.old).bytes }
{
    if refused_before(ONE, old) & refused_before(TWO, old) {
        return BAD_RECORD;
    }
    let Some(area) = area.as_mut_array::<SIZE>() else {
        return BAD_RECORD;
    };
    put_newer(area, old);
    DONE
}

// The symbol of this slot.
pub fn send(area: &mut [u8]) -> Reply
    ensures value { result ≡ (through sending area.old).reply }
    ensures area_after { area.new ≡ (through sending area.old).bytes }
{
    on_end(area, |end| {
        let sent = end.send();
        let reply = Reply {
            answer: sent.answer,
            value: sent.symbol,
        };
        (reply, sent.end)
    })
    .unwrap_or(BAD_RECORD)
}

// A symbol that arrived.
pub fn take(area: &mut [u8], symbol: u16) -> Reply
    ensures value { result ≡ (through (taking symbol) area.old).reply }
    ensures area_after { area.new ≡ (through (taking symbol) area.old).bytes }
{
    let Told { answer, .. } = take_reason(area, symbol);
    Reply { answer, value: 0 }
}

// The same take, and what became of the collection.
pub fn take_reason(area: &mut [u8], symbol: u16) -> Told
    ensures value { result ≡ told_by symbol area.old }
    ensures area_after { area.new ≡ (through (taking symbol) area.old).bytes }
{
    on_end(area, |end| {
        let taken = end.take(symbol);
        let told = Told {
            answer: taken.answer,
            reason: taken.reason,
        };
        (told, taken.end)
    })
    .unwrap_or(Told {
        answer: Answer::BadRecord,
        reason: Reason::Nothing,
    })
}

// A register's value.
pub fn read(area: &mut [u8], register: u16) -> Reply
    ensures value { result ≡ (through (reading register) area.old).reply }
    ensures area_after { area.new ≡ (through (reading register) area.old).bytes }
{
    on_end(area, |end| {
        let Read { answer, value, end } = end.read(register);
        (Reply { answer, value }, end)
    })
    .unwrap_or(BAD_RECORD)
}

// A value for a register.
pub fn write(area: &mut [u8], register: u16, value: u16) -> Reply
    ensures value { result ≡ (through (writing register value) area.old).reply }
    ensures area_after { area.new ≡ (through (writing register value) area.old).bytes }
{
    on_end(area, |end| {
        let Next { answer, end } = end.write(register, value);
        (Reply { answer, value: 0 }, end)
    })
    .unwrap_or(BAD_RECORD)
}

// The health to send, from the next frame start on.
pub fn set_health(area: &mut [u8], health: u16) -> Reply
    ensures value { result ≡ (through (setting_health health) area.old).reply }
    ensures area_after { area.new ≡ (through (setting_health health) area.old).bytes }
{
    on_end(area, |end| {
        let Next { answer, end } = end.set_health(health);
        (Reply { answer, value: 0 }, end)
    })
    .unwrap_or(BAD_RECORD)
}

// Whether the partner is present. The record is only read.
pub fn present(area: &[u8]) -> Reply
    ensures { result ≡ (through presenting area.now).reply }
{
    let Some(end) = end_in(area) else {
        return BAD_RECORD;
    };
    Reply {
        answer: Answer::Done,
        value: u16::from(end.present()),
    }
}

// The counts. The record is only read.
pub fn counts(area: &[u8]) -> Counted
    ensures { result ≡ counts_by area.now }
{
    let Some(end) = end_in(area) else {
        return Counted {
            answer: Answer::BadRecord,
            counts: Counts::default(),
        };
    };
    Counted {
        answer: Answer::Done,
        counts: end.counts,
    }
}

// The record of the end, in an area of the right size.
fn fill(area: &mut [u8], given: End) -> Reply
    ensures value { result ≡ (filled given area.old).reply }
    ensures area_after { area.new ≡ (filled given area.old).bytes }
{
    let Some(area) = area.as_mut_array::<SIZE>() else {
        return BAD_RECORD;
    };
    put_end(area, given);
    DONE
}

// The end of a record, unless it is refused.
fn end_in(area: &[u8]) -> Option<End>
    ensures { MatchOption result (refused area.now ≡ true) (λ e. (refused area.now ≡ false) × (e ≡ end_of area.now)) }
{
    if refused(area) {
        return None;
    }
    let record = area.as_array()?;
    Some(end_of(record))
}

// What a call on the end of a record gives, unless the record is refused. The end is written back whatever the answer
// is: a refused call gives the end that was read, and writing that one leaves every byte as it was.
fn on_end<T, F: FnOnce(End) -> (T, End)>(area: &mut [u8], call: F) -> Option<T>
    requires { F.IsAlwaysCallable call }
    ensures { Made area.old area.new (λ x n. F.post call (end_of area.old) (x, n)) result }
{
    if refused(area) {
        return None;
    }
    let record = area.as_mut_array::<SIZE>()?;
    let (said, next) = call(end_of(record));
    put_end(record, next);
    Some(said)
}
