// What the calls on a reporting host print: a line each.
ghost use Rattle.std.specs.Prelude.{◌++◌, ◌≡◌, ◌≤◌, ◌+◌, length};
ghost use Rattle.benchreports.specs.Told.{answer_line, digits_of, miscounted_line, said, next_of};
ghost use Rattle.benchreports.specs.Told.{push_line, took_line, pull_line, report_line};
ghost use Rattle.text.specs.Written.{Kept, written};

use answer::Answer;
use report::{PARTS, Pull, Push, Take};
use text::output::Output;

// The line of a push.
pub fn pushed(what: Push, out: &mut Output)
    requires { out.old.at + 32 ≤ length out.old.bytes.now }
    ensures upper_bound { out.new.at ≤ out.old.at + 32 }
    ensures kept { Kept out.old out.new }
    ensures written { written out.new ≡ written out.old ++ push_line what }
{
    match what {
        Push::Idle => out.text(b"idle\n"),
        Push::Waits => out.text(b"waits\n"),
        Push::Refused(answer) => answered(answer, out),
        Push::Part(n) => said(b"part ", n, out),
    }
}

// The line of a pull, with the block that is handed over, where one is.
pub fn pulled(what: Pull, block: [u8; 128], out: &mut Output)
    requires { out.old.at + 320 ≤ length out.old.bytes.now }
    ensures upper_bound { out.new.at ≤ out.old.at + 320 }
    ensures kept { Kept out.old out.new }
    ensures written { written out.new ≡ written out.old ++ pull_line what block }
{
    match what {
        Pull::Refused(answer) => answered(answer, out),
        Pull::Empty => out.text(b"empty\n"),
        Pull::Took(message) => took(message, block, out),
    }
}

// The line of a message that was taken.
fn took(what: Take, block: [u8; 128], out: &mut Output)
    requires { out.old.at + 320 ≤ length out.old.bytes.now }
    ensures upper_bound { out.new.at ≤ out.old.at + 320 }
    ensures kept { Kept out.old out.new }
    ensures written { written out.new ≡ written out.old ++ took_line what block }
{
    match what {
        Take::Part(n) => said(b"part ", n, out),
        Take::Out(n) => said(b"out ", n, out),
        Take::Whole => {
            out.text(b"block ");
            digits(block, out);
            out.byte(b'\n');
        }
    }
}

// The line of what a reporting host has: the number that is next, the number in turn and the part block.
pub fn reported(next: u8, turn: u8, block: [u8; 128], out: &mut Output)
    requires { out.old.at + 320 ≤ length out.old.bytes.now }
    ensures upper_bound { out.new.at ≤ out.old.at + 320 }
    ensures kept { Kept out.old out.new }
    ensures written { written out.new
        ≡ written out.old ++ report_line next turn block }
{
    next_shown(next, out);
    out.numbered(b" turn ", turn);
    out.text(b" part ");
    digits(block, out);
    out.byte(b'\n');
}

// The number that is sent next, or that no block is under way.
fn next_shown(next: u8, out: &mut Output)
    requires { out.old.at + 25 ≤ length out.old.bytes.now }
    ensures upper_bound { out.new.at ≤ out.old.at + 25 }
    ensures kept { Kept out.old out.new }
    ensures written { written out.new ≡ written out.old ++ next_of next }
{
    if next < PARTS {
        out.numbered(b"next ", next);
    } else {
        out.text(b"next -");
    }
}

// The line of a list that is no block, as it has another number of bytes.
pub fn miscounted(count: usize, out: &mut Output)
    requires { out.old.at + 48 ≤ length out.old.bytes.now }
    ensures upper_bound { out.new.at ≤ out.old.at + 48 }
    ensures kept { Kept out.old out.new }
    ensures written { written out.new ≡ written out.old ++ miscounted_line count }
{
    out.text(b"? ");
    out.decimal(count as u64);
    out.text(b" bytes, not 128\n");
}

// The bytes of a block, two digits each.
#[tactic(auto, unfolding(crate::specs::Told::digits_of))]
fn digits(block: [u8; 128], out: &mut Output)
    requires { out.old.at + 256 ≤ length out.old.bytes.now }
    ensures at_value { out.new.at ≡ out.old.at + 256 }
    ensures kept { Kept out.old out.new }
    ensures written { written out.new ≡ written out.old ++ digits_of block }
{
    for byte in block {
        out.hex(u64::from(byte), 2);
    }
}

// The line of an answer alone.
pub fn answered(answer: Answer, out: &mut Output)
    requires { out.old.at + 21 ≤ length out.old.bytes.now }
    ensures upper_bound { out.new.at ≤ out.old.at + 21 }
    ensures kept { Kept out.old out.new }
    ensures written { written out.new ≡ written out.old ++ answer_line answer }
{
    said(b"", u8::from(answer), out)
}

// A word, which brings its own space, and a number behind it.
fn said(word: &[u8], number: u8, out: &mut Output)
    requires { out.old.at + length word.now + 21 ≤ length out.old.bytes.now }
    ensures upper_bound { out.new.at ≤ out.old.at + length word.now + 21 }
    ensures kept { Kept out.old out.new }
    ensures written { written out.new ≡ written out.old ++ said word.now number }
{
    out.numbered(word, number);
    out.byte(b'\n');
}
