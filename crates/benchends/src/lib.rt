// The calls of document 01 on an end, with what they print.
#![tactic(auto)]

ghost use Rattle.std.specs.Prelude.{◌++◌, ◌≡◌, ◌≤◌, ◌+◌, length, take};
ghost use Rattle.answer.specs.Number.{number_of};
ghost use Rattle.benchends.specs.Called.{answer_line, end_after, ended_of, line_of};
ghost use Rattle.console.specs.Ready.{Room};
ghost use Rattle.text.specs.Printed.{decimal_of};
ghost use Rattle.text.specs.Written.{Kept, written};

use answer::Answer;
use benchcommands::call::Call;
use end::{End, Next};
use frame::reason::Reason;
use text::output::Output;

// A call on an end, and its line. What the end is after it.
pub fn call_on(end: End, call: Call, out: &mut Output) -> End
    requires { Room out.old }
    ensures end_value { result ≡ end_after call end }
    ensures kept { Kept out.old out.new }
    ensures written { written out.new ≡ written out.old ++ line_of call end }
{
    match call {
        Call::Reset => {
            out.text(b"0\n");
            End::reset()
        }
        Call::Send => {
            let sent = end.send();
            number(sent.answer, out);
            out.valued(sent.symbol, 3);
            sent.end
        }
        Call::Take(symbol) => {
            let taken = end.take(symbol);
            number(taken.answer, out);
            ended(taken.reason, out);
            out.byte(b'\n');
            taken.end
        }
        Call::Read(register) => {
            let got = end.read(register);
            number(got.answer, out);
            out.valued(got.value, 4);
            got.end
        }
        Call::Write(register, value) => answered(end.write(register, value), out),
        Call::Health(health) => answered(end.set_health(health), out),
        Call::Present => {
            out.text(if end.present() { b"yes\n" } else { b"no\n" });
            end
        }
    }
}

// A line of an answer alone.
fn answered(next: Next, out: &mut Output) -> End
    requires { Room out.old }
    ensures end_value { result ≡ next.end }
    ensures kept { Kept out.old out.new }
    ensures written { written out.new ≡ written out.old ++ answer_line next.answer }
{
    number(next.answer, out);
    out.byte(b'\n');
    next.end
}

// An answer's number, which begins its line.
fn number(answer: Answer, out: &mut Output)
    requires { out.old.at + 20 ≤ length out.old.bytes.now }
    ensures kept { Kept out.old out.new }
    ensures written { written out.new
        ≡ written out.old ++ decimal_of (number_of answer) }
    ensures at_bound { out.new.at ≤ out.old.at + 20 }
{
    out.decimal(u64::from(u8::from(answer)));
}

// What became of the collection, after a take's answer.
fn ended(reason: Reason, out: &mut Output)
    requires { out.old.at + 32 ≤ length out.old.bytes.now }
    ensures kept { Kept out.old out.new }
    ensures written { written out.new ≡ written out.old ++ ended_of reason }
    ensures at_bound { out.new.at ≤ out.old.at + 32 }
{
    match reason {
        Reason::Nothing => {}
        Reason::Accepted => out.text(b" accepted"),
        Reason::Crc => out.text(b" crc"),
        Reason::Marked(count) => out.numbered(b" marked ", count),
        Reason::Parity(count) => out.numbered(b" early ", count),
    }
}
