// The calls that the C side makes, as include/simhadol.h declares them: those of crate `record`, with the answer as a
// number.
#![tactic(auto)]

ghost use Rattle.std.specs.Prelude.{◌≡◌};
ghost use Rattle.recordspec.specs.Record.{size};
ghost use Rattle.recordspec.specs.Results.{sending, taking, reading, writing, setting_health, presenting};
ghost use Rattle.record.specs.Calls.{resetting, through, told_by, upgrading, counts_by};
ghost use Rattle.simhadol.specs.Numbered.{numbered, told, counted};

use record::{Counted, Reply, Told};

// An answer's number, and the symbol of a send, the value of a read, 1 for present; else 0.
#[repr(C)]
#[derive(Clone, Copy)]
pub struct SimhadolReply {
    pub answer: u16,
    pub value: u16,
}

// An answer's number, that of what became of the collection, and how many symbols it had if it was broken; else 0.
#[repr(C)]
#[derive(Clone, Copy)]
pub struct SimhadolTaken {
    pub answer: u16,
    pub reason: u16,
    pub symbols: u16,
}

// An answer's number, and the four counts; all 0 where it is refused.
#[repr(C)]
#[derive(Clone, Copy)]
pub struct SimhadolCounted {
    pub answer: u16,
    pub accepted: u16,
    pub crc: u16,
    pub marked: u16,
    pub early: u16,
}

// How many bytes a record has.
#[unsafe(no_mangle)]
pub extern "C" fn simhadol_record_length() -> usize
    ensures { result ≡ size }
{
    recordbytes::SIZE
}

// Fills an area of the right size with the record of an end just reset.
#[unsafe(no_mangle)]
pub extern "C" fn simhadol_reset(area: &mut [u8]) -> SimhadolReply
    ensures value { result ≡ numbered (resetting area.old).reply }
    ensures area_after { area.new ≡ (resetting area.old).bytes }
{
    record::reset(area).into()
}

// The symbol of this slot.
#[unsafe(no_mangle)]
pub extern "C" fn simhadol_send(area: &mut [u8]) -> SimhadolReply
    ensures value { result ≡ numbered (through sending area.old).reply }
    ensures area_after { area.new ≡ (through sending area.old).bytes }
{
    record::send(area).into()
}

// A symbol that arrived.
#[unsafe(no_mangle)]
pub extern "C" fn simhadol_take(area: &mut [u8], symbol: u16) -> SimhadolReply
    ensures value { result ≡ numbered (through (taking symbol) area.old).reply }
    ensures area_after { area.new ≡ (through (taking symbol) area.old).bytes }
{
    record::take(area, symbol).into()
}

// The same take, which also says what became of the collection.
#[unsafe(no_mangle)]
pub extern "C" fn simhadol_take_reason(area: &mut [u8], symbol: u16) -> SimhadolTaken
    ensures value { result ≡ told (told_by symbol area.old) }
    ensures area_after { area.new ≡ (through (taking symbol) area.old).bytes }
{
    record::take_reason(area, symbol).into()
}

// The value of the register of that number.
#[unsafe(no_mangle)]
pub extern "C" fn simhadol_read(area: &mut [u8], number: u16) -> SimhadolReply
    ensures value { result ≡ numbered (through (reading number) area.old).reply }
    ensures area_after { area.new ≡ (through (reading number) area.old).bytes }
{
    record::read(area, number).into()
}

// A value for the register of that number.
#[unsafe(no_mangle)]
pub extern "C" fn simhadol_write(area: &mut [u8], number: u16, value: u16) -> SimhadolReply
    ensures value { result ≡ numbered (through (writing number value) area.old).reply }
    ensures area_after { area.new ≡ (through (writing number value) area.old).bytes }
{
    record::write(area, number, value).into()
}

// The health to send.
#[unsafe(no_mangle)]
pub extern "C" fn simhadol_set_health(area: &mut [u8], health: u16) -> SimhadolReply
    ensures value { result ≡ numbered (through (setting_health health) area.old).reply }
    ensures area_after { area.new ≡ (through (setting_health health) area.old).bytes }
{
    record::set_health(area, health).into()
}

// Whether the partner is present: 1 or 0.
#[unsafe(no_mangle)]
pub extern "C" fn simhadol_present(area: &[u8]) -> SimhadolReply
    ensures { result ≡ numbered (through presenting area.now).reply }
{
    record::present(area).into()
}

// The counts.
#[unsafe(no_mangle)]
pub extern "C" fn simhadol_counts(area: &[u8]) -> SimhadolCounted
    ensures { result ≡ counted (counts_by area.now) }
{
    record::counts(area).into()
}

// Fills an area of the right size with the record of the end that an old one, of version 1 or 2, is the
// record of.
#[unsafe(no_mangle)]
pub extern "C" fn simhadol_upgrade(old: &[u8], area: &mut [u8]) -> SimhadolReply
    ensures value { result ≡ numbered (upgrading old.now area.old).reply }
    ensures area_after { area.new ≡ (upgrading old.now area.old).bytes }
{
    record::upgrade(old, area).into()
}

// A reply as C reads it.
impl From<Reply> for SimhadolReply {
    ghost from_gives = { λ reply given. given ≡ numbered reply };

    fn from(reply: Reply) -> SimhadolReply {
        SimhadolReply {
            answer: u16::from(u8::from(reply.answer)),
            value: reply.value,
        }
    }
}

// What a take said, as C reads it.
impl From<Told> for SimhadolTaken {
    ghost from_gives = { λ taken given. given ≡ told taken };

    fn from(taken: Told) -> SimhadolTaken {
        SimhadolTaken {
            answer: u16::from(u8::from(taken.answer)),
            reason: u16::from(u8::from(taken.reason)),
            symbols: u16::from(taken.reason.place()),
        }
    }
}

// Counts as C reads them.
impl From<Counted> for SimhadolCounted {
    ghost from_gives = { λ asked given. given ≡ counted asked };

    fn from(asked: Counted) -> SimhadolCounted {
        SimhadolCounted {
            answer: u16::from(u8::from(asked.answer)),
            accepted: asked.counts.accepted,
            crc: asked.counts.crc,
            marked: asked.counts.marked,
            early: asked.counts.early,
        }
    }
}
