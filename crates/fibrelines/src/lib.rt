// The gigabit fibre channel as a link has it: its ends, and what goes over the two lines between them.
#![tactic(auto)]

ghost use Rattle.std.specs.Prelude.{◌≡◌};
ghost use Rattle.fibre.specs.Good.{reset_of};
ghost use Rattle.fibrelines.specs.Signals.{Marks, Sends, Takes};

use answer::Answer;
use consolecommands::link;
use consolecommands::link::{Channel, Link};
use fibre::End;
use fibrefields::block::Signal;

// How many signals are kept of each line: more than the longest delay. They stand in an array of the caller's.
pub const KEPT: usize = link::KEPT;

// Ends of the gigabit fibre channel.
#[derive(Clone, Copy)]
pub struct Fibre;

impl Channel for Fibre {
    type End = End;

    type Signal = Signal;

    ghost begins = { λ end. end ≡ reset_of };

    ghost sends = { Sends };

    ghost takes = { Takes };

    ghost marks = { Marks };

    fn reset() -> End {
        End::reset()
    }

    // A refused send puts a block marked bad on the line.
    fn send(end: End) -> (Signal, End) {
        let sent = end.send();
        let signal = Signal {
            marked: sent.answer != Answer::Done,
            block: sent.block,
        };
        (signal, sent.end)
    }

    fn take(end: End, signal: Signal) -> End {
        end.take(signal.marked, signal.block).end
    }

    // A mark keeps the block.
    fn marked(signal: Signal) -> Signal {
        Signal {
            marked: true,
            ..signal
        }
    }
}

// Both ends reset, both lines empty and without a delay.
pub fn joined<'a>(to_a: &'a mut [Signal; KEPT], to_b: &'a mut [Signal; KEPT]) -> Link<'a, Fibre>
    ensures reset { (result.a ≡ reset_of) × (result.b ≡ reset_of) }
    ensures delayed { (result.to_b.delay ≡ 0) × (result.to_a.delay ≡ 0) }
    ensures unmarked { (result.to_b.marks ≡ 0) × (result.to_a.marks ≡ 0) }
    ensures begun { result.slots ≡ 0 }
{
    Link::new(to_a, to_b)
}
