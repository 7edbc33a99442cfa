// What a line asks of two ends joined and of the lines between them.
ghost use Rattle.std.specs.Prelude.{◌≡◌, ◌∷◌, codes, ℕ, List, Result, Ok, Err, IfOk};
ghost use Rattle.text.specs.declared.fault.Fault.{Fault};
ghost use Rattle.consolecommands.specs.declared.Side.{Side};
ghost use Rattle.consolecommands.specs.declared.command.Command.{Command};
ghost use Rattle.console.specs.Ready.{Room};
ghost use Rattle.consolecommands.specs.Commands.{mark_of, side_name, slots_of, Names, Performs, Reads};
ghost use Rattle.text.specs.Numbers.{last_of};
ghost use Rattle.text.specs.Words.{words_of};
ghost use Rattle.text.specs.Written.{Kept, written};

use crate::Side;
use crate::numbers::two_numbers;
use text::fault::Fault;
use text::numbers::DECIMAL;
use text::output::Output;
use text::words;

// A command that was read whole. What is asked of an end itself stands behind the end's name, and is for its own
// console to read.
#[derive(Clone, Copy)]
pub enum Command {
    Link(u16, u16),
    Slot(u16),
    Mark(Side, u16),
    On(Side),
}

// The longest delay of a line.
pub const LONGEST: u64 = 4096;

// Two ends joined, as a line of a console asks of them. What each call does is said by a relation of the ends before
// and after it; where an impl gives none, it says nothing of them.
pub trait Ends {
    ghost restarts: { Self → ℕ → ℕ → Self → Type 0 } = { λ _ _ _ _. Unit {0} };

    ghost runs: { Self → ℕ → ℕ → Self → Type 0 } = { λ _ _ _ _. Unit {0} };

    ghost marks: { Self → Side → ℕ → Self → Type 0 } = { λ _ _ _ _. Unit {0} };

    ghost calls: { Self → Side → Self → Type 0 } = { λ _ _ _. Unit {0} };

    // Both ends reset, both lines empty and of these delays, nothing marked.
    fn restart(&mut self, to_b: u16, to_a: u16)
        ensures { restarts self.old to_b to_a self.new };

    // So many slots. How many there were since the last restart is answered.
    fn slots(&mut self, count: u16) -> u64
        ensures { runs self.old count result self.new };

    // The next so many that arrive at a side are marked.
    fn mark(&mut self, side: Side, count: u16)
        ensures { marks self.old side count self.new };

    // What is asked of the end of a side is done, and its line printed.
    fn on_end(&mut self, side: Side, rest: &[u8], out: &mut Output)
        requires { Room out.old }
        ensures kept { Kept out.old out.new }
        ensures called { calls self.old side self.new };
}

// The command of a word and of what stands behind it is done, and its line printed.
pub fn perform<E: Ends>(ends: &mut E, word: &[u8], rest: &[u8], out: &mut Output)
    requires { Room out.old }
    ensures kept { Kept out.old out.new }
    ensures performed { (r : Result Command Fault)
        × Reads word.now (words_of rest.now) r
        × Performs E.restarts E.runs E.marks E.calls r ends.old ends.new
        (written out.old) (written out.new) }
{
    match parsed(word, rest) {
        Err(fault) => out.fault(fault),
        Ok(Command::Link(to_b, to_a)) => {
            ends.restart(to_b, to_a);
            out.text(b"ok\n");
        }
        Ok(Command::Slot(count)) => {
            let slots = ends.slots(count);
            out.text(b"slot ");
            out.decimal(slots);
            out.byte(b'\n');
        }
        Ok(Command::Mark(side, count)) => {
            ends.mark(side, count);
            out.text(b"ok\n");
        }
        Ok(Command::On(side)) => ends.on_end(side, rest, out),
    }
}

// The command of a word and of what stands behind it.
pub fn parsed(word: &[u8], rest: &[u8]) -> Result<Command, Fault>
    ensures reads { Reads word.now (words_of rest.now) result }
    ensures named { IfOk result (λ command. Names word.now command) }
{
    match word {
        b"link" => {
            let delay = DECIMAL.up_to(LONGEST);
            let (to_b, to_a) = two_numbers(rest, delay, delay)?;
            Ok(Command::Link(to_b, to_a))
        }
        b"slot" => Ok(Command::Slot(slots_of(rest)?)),
        b"mark" => mark(rest),
        _ => Ok(Command::On(Side::named(word).ok_or(Fault::Command)?)),
    }
}

// How many slots: one where no number stands.
fn slots_of(line: &[u8]) -> Result<u16, Fault>
    ensures { result ≡ slots_of (words_of line.now) }
{
    if words::is_last(line) {
        return Ok(1);
    }
    DECIMAL.last(line)
}

// The side at which is marked, and how many are.
fn mark(line: &[u8]) -> Result<Command, Fault>
    ensures at { (s : Side) (vs : List (List ℕ)) → words_of line.now ≡ side_name s ∷ vs
        → result ≡ mark_of s (last_of 10 65535 vs) }
    ensures nowhere { ((s : Side) (vs : List (List ℕ)) → ¬ (words_of line.now ≡ side_name s ∷ vs))
        → result ≡ Err Fault.Command }
    ensures named { IfOk result (Names (codes "mark")) }
{
    let (word, rest) = words::next(line).ok_or(Fault::Command)?;
    let side = Side::named(word).ok_or(Fault::Command)?;
    Ok(Command::Mark(side, DECIMAL.last(rest)?))
}
