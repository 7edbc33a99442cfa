// What is asked of an end of the gigabit fibre channel, done and printed.
#![tactic(auto)]

ghost use Rattle.std.specs.Prelude.{◌≡◌, ◌≤◌, ◌+◌, length};
ghost use Rattle.console.specs.Ready.{Room};
ghost use Rattle.fibreends.specs.Calls.{performed_of, Answers};
ghost use Rattle.text.specs.Written.{Kept, written};

use answer::Answer;
use consolecommands::dump;
use fibre::{Block, End, Next};
use fibrecommands::call;
use fibrecommands::call::Call;
use fibrefields::block::{Signal, numbers_of};
use fibrefields::fields::{value, written};
use text::output::Output;

// What a line asks of an end is done and printed; the next end is answered. What is wrong with a line changes nothing.
pub fn answered(end: End, line: &[u8], out: &mut Output) -> End
    requires { Room out.old }
    ensures end_after { Answers end result }
    ensures kept { Kept out.old out.new }
{
    match call::parsed(line) {
        Ok(call) => performed(end, call, out),
        Err(fault) => {
            out.fault(fault);
            end
        }
    }
}

// A call is made, and its line printed.
fn performed(end: End, call: Call, out: &mut Output) -> End
    requires { Room out.old }
    ensures end_after { result ≡ performed_of end call }
    ensures kept { Kept out.old out.new }
{
    match call {
        Call::Reset => {
            out.text(b"0\n");
            End::reset()
        }
        Call::Send => {
            let sent = end.send();
            told(sent.answer, out);
            shown(sent.block, out);
            sent.end
        }
        Call::Take(numbers) => {
            let signal = Signal::from(numbers);
            alone(end.take(signal.marked, signal.block), out)
        }
        Call::Read(word) => {
            let read = end.read(word);
            told(read.answer, out);
            out.valued(read.value, 4);
            read.end
        }
        Call::Write(word, value) => alone(end.write(word, value), out),
        Call::Dump => {
            dump::dumped(|field, i| value(end, field, i), out);
            end
        }
        Call::Set(setting) => {
            out.text(b"ok\n");
            written(end, setting)
        }
    }
}

// A line of an answer alone.
fn alone(next: Next, out: &mut Output) -> End
    requires { Room out.old }
    ensures end_after { result ≡ next.end }
    ensures kept { Kept out.old out.new }
{
    told(next.answer, out);
    out.byte(b'\n');
    next.end
}

// An answer's number.
fn told(answer: Answer, out: &mut Output)
    requires { out.old.at + 20 ≤ length out.old.bytes.now }
    ensures at_bound { out.new.at ≤ out.old.at + 20 }
    ensures kept { Kept out.old out.new }
{
    out.decimal(u64::from(u8::from(answer)));
}

// A block behind the answer: its numbers but the mark.
fn shown(block: Block, out: &mut Output)
    requires { out.old.at + 61 ≤ length out.old.bytes.now }
    ensures kept { Kept out.old out.new }
{
    let numbers = numbers_of(Signal {
        marked: false,
        block,
    });
    for (i, number) in numbers[1..].iter().enumerate() {
        out.byte(b' ');
        out.hex(u64::from(*number), digits(i));
    }
    out.byte(b'\n');
}

// In how many digits a number of a block is printed, counted from 0 behind the mark: a toggle in 1, the control in 3, a
// word in 4.
fn digits(i: usize) -> usize
    ensures { result ≤ 4 }
{
    match i {
        0..=2 => 1,
        3 => 3,
        _ => 4,
    }
}
