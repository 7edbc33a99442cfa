// A line between two ends, whatever they send: when it arrives, and whether it is marked then.
ghost use Rattle.std.specs.Prelude.{◌≡◌};
ghost use Rattle.consolecommands.specs.Line.{after_of, arrival_of};

// A line: what arrives was sent `delay` slots ago, and the next `marks` that arrive are marked.
#[derive(Clone, Copy)]
pub struct Line {
    pub delay: u64,
    pub marks: u16,
}

// What arrives in a slot: nothing yet, or what was sent in that earlier slot, sound or marked: three cases, as
// `arrival_of` has them.
#[derive(Clone, Copy)]
pub enum Arrival {
    Nothing,
    Sound(u64),
    Marked(u64),
}

impl Line {
    // A line of a delay, with nothing marked.
    pub fn fresh(delay: u16) -> Line
        ensures delay { result.delay ≡ delay }
        ensures unmarked { result.marks ≡ 0 }
    {
        Line {
            delay: u64::from(delay),
            marks: 0,
        }
    }

    // What arrives in this slot.
    pub fn arrival(self, now: u64) -> Arrival
        ensures { result ≡ arrival_of self now }
    {
        if now < self.delay {
            return Arrival::Nothing;
        }
        let sent = now - self.delay;
        if self.marks > 0 {
            return Arrival::Marked(sent);
        }
        Arrival::Sound(sent)
    }

    // The line after this slot. A mark is used up by what arrives, also where the end refuses it.
    pub fn after(self, now: u64) -> Line
        ensures { result ≡ after_of self now }
    {
        if now < self.delay {
            return self;
        }
        Line {
            marks: self.marks.saturating_sub(1),
            ..self
        }
    }
}
