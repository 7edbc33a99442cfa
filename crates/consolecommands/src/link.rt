// Two ends joined, whatever they are, and the two lines between them.
ghost use Rattle.std.specs.Prelude.{◌≡◌, ◌≤◌, ◌<◌, ◌+◌, ◌%◌, ◌^◌, length};
ghost use Rattle.consolecommands.specs.Line.{arrival_of};
ghost use Rattle.consolecommands.specs.Slots.{state, Arrives, Slot, Slots};
ghost use Rattle.consolecommands.specs.Commands.{at_side};

use crate::Side;
use crate::line::{Arrival, Line};

// How many signals are kept of each line: more than the longest delay.
pub const KEPT: usize = 8192;

// The ends of a kind, and what they send each other in a slot. What each call answers is said by a relation; where an
// impl gives none, it says nothing.
pub trait Channel {
    type End: Copy;

    type Signal: Copy;

    ghost begins: { Self.End → Type 0 } = { λ _. Unit {0} };

    ghost sends: { Self.End → Self.Signal → Self.End → Type 0 } = { λ _ _ _. Unit {0} };

    ghost takes: { Self.End → Self.Signal → Self.End → Type 0 } = { λ _ _ _. Unit {0} };

    ghost marks: { Self.Signal → Self.Signal → Type 0 } = { λ _ _. Unit {0} };

    // An end that was just reset.
    fn reset() -> Self::End
        ensures { begins result };

    // What the end sends in a slot, and the end after that.
    fn send(end: Self::End) -> (Self::Signal, Self::End)
        ensures { sends end result.0 result.1 };

    // The end after it took what arrived.
    fn take(end: Self::End, signal: Self::Signal) -> Self::End
        ensures { takes end signal result };

    // What arrives of a signal that is marked on its way.
    fn marked(signal: Self::Signal) -> Self::Signal
        ensures { marks signal result };
}

// The ends, the lines by where they lead, what was sent on them, and how many slots there were since the last restart.
#[derive(Drop)]
pub struct Link<'a, C: Channel> {
    a: C::End,
    b: C::End,
    to_a: Line,
    to_b: Line,
    slots: u64,
    kept_a: &'a mut [C::Signal],
    kept_b: &'a mut [C::Signal],
    ghost holds_a: { 8192 ≤ length kept_a.now },
    ghost holds_b: { 8192 ≤ length kept_b.now },
}

impl<'a, C: Channel> Link<'a, C> {
    // Both ends reset, over lines without a delay. What is sent to a side is kept in an array of the caller's.
    pub fn new(kept_a: &'a mut [C::Signal], kept_b: &'a mut [C::Signal]) -> Link<'a, C>
        requires a_holds { KEPT ≤ length kept_a.old }
        requires b_holds { KEPT ≤ length kept_b.old }
        ensures reset { C.begins result.a × C.begins result.b }
        ensures delayed { (result.to_b.delay ≡ 0) × (result.to_a.delay ≡ 0) }
        ensures unmarked { (result.to_b.marks ≡ 0) × (result.to_a.marks ≡ 0) }
        ensures begun { result.slots ≡ 0 }
    {
        Link {
            a: C::reset(),
            b: C::reset(),
            to_a: Line::fresh(0),
            to_b: Line::fresh(0),
            slots: 0,
            kept_a,
            kept_b,
        }
    }

    // Both ends reset, both lines empty and of these delays, nothing marked.
    pub fn restart(&mut self, to_b: u16, to_a: u16)
        ensures reset { C.begins self.new.a × C.begins self.new.b }
        ensures delayed { (self.new.to_b.delay ≡ to_b) × (self.new.to_a.delay ≡ to_a) }
        ensures unmarked { (self.new.to_b.marks ≡ 0) × (self.new.to_a.marks ≡ 0) }
        ensures begun { self.new.slots ≡ 0 }
    {
        self.a = C::reset();
        self.b = C::reset();
        self.to_a = Line::fresh(to_a);
        self.to_b = Line::fresh(to_b);
        self.slots = 0;
    }

    // The end of a side.
    pub fn end_of(&self, side: Side) -> C::End
        ensures { result ≡ at_side side self.now.a self.now.b }
    {
        match side {
            Side::A => self.a,
            Side::B => self.b,
        }
    }

    // Another end in a side's place.
    pub fn set_end(&mut self, side: Side, end: C::End)
        ensures a { self.new.a ≡ at_side side end self.old.a }
        ensures b { self.new.b ≡ at_side side self.old.b end }
        ensures lines { (self.new.to_a ≡ self.old.to_a) × (self.new.to_b ≡ self.old.to_b) }
        ensures slots { self.new.slots ≡ self.old.slots }
    {
        match side {
            Side::A => self.a = end,
            Side::B => self.b = end,
        }
    }

    // The next so many signals that arrive at a side are marked.
    pub fn mark(&mut self, side: Side, count: u16)
        ensures to_a { self.new.to_a ≡ at_side side (record self.old.to_a { marks = count }) self.old.to_a }
        ensures to_b { self.new.to_b ≡ at_side side self.old.to_b (record self.old.to_b { marks = count }) }
        ensures ends { (self.new.a ≡ self.old.a) × (self.new.b ≡ self.old.b) }
        ensures slots { self.new.slots ≡ self.old.slots }
    {
        match side {
            Side::A => self.to_a.marks = count,
            Side::B => self.to_b.marks = count,
        }
    }

    // So many slots. How many there were since the last restart is answered.
    pub fn slots(&mut self, count: u16) -> u64
        ensures counted { self.new.slots ≡ (self.old.slots + count) % 2 ^ 64 }
        ensures value { result ≡ self.new.slots }
        ensures run { Slots C.sends C.takes C.marks count
            (state self.old.a self.old.b self.old.to_a self.old.to_b self.old.slots self.old.kept_a.now self.old.kept_b.now)
            (state self.new.a self.new.b self.new.to_a self.new.to_b self.new.slots self.new.kept_a.now self.new.kept_b.now) }
        ensures delays { (self.new.to_a.delay ≡ self.old.to_a.delay) × (self.new.to_b.delay ≡ self.old.to_b.delay) }
    {
        let mut slots = self.slots;
        for _ in 0..count {
            slots = self.slot();
        }
        slots
    }

    // In a slot both ends send, then both take what arrives. How many there were is answered.
    fn slot(&mut self) -> u64
        ensures stepped { Slot C.sends C.takes C.marks
            (state self.old.a self.old.b self.old.to_a self.old.to_b self.old.slots self.old.kept_a.now self.old.kept_b.now)
            (state self.new.a self.new.b self.new.to_a self.new.to_b self.new.slots self.new.kept_a.now self.new.kept_b.now) }
        ensures value { result ≡ self.new.slots }
    {
        let now = self.slots;
        let (from_a, a) = C::send(self.a);
        let (from_b, b) = C::send(self.b);
        let kept_a = &mut *self.kept_a;
        kept_a[place(now)] = from_b;
        self.a = arrived::<C>(a, self.to_a, now, kept_a);
        let kept_b = &mut *self.kept_b;
        kept_b[place(now)] = from_a;
        self.b = arrived::<C>(b, self.to_b, now, kept_b);
        self.to_a = self.to_a.after(now);
        self.to_b = self.to_b.after(now);
        self.slots = now.wrapping_add(1);
        self.slots
    }
}

// Where the signal of a slot is kept.
fn place(slot: u64) -> usize
    ensures { result ≡ slot % 8192 }
{
    (slot % KEPT as u64) as usize
}

// An end takes what arrives in this slot, if anything does.
fn arrived<C: Channel>(end: C::End, line: Line, now: u64, kept: &[C::Signal]) -> C::End
    requires { KEPT ≤ length kept.now }
    ensures { Arrives C.takes C.marks (arrival_of line now) kept.now end result }
{
    match line.arrival(now) {
        Arrival::Nothing => end,
        Arrival::Sound(slot) => C::take(end, kept[place(slot)]),
        Arrival::Marked(slot) => C::take(end, C::marked(kept[place(slot)])),
    }
}
