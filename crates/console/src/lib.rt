// The loop of a console: standard input line after line, each answered by the program, and the answers, gathered and
// handed on before the program waits for more.
#![tactic(auto)]

ghost use Rattle.std.specs.Prelude.{◌≡◌, ◌≤◌, length};
ghost use Rattle.console.specs.Ready.{turn_room, Room};
ghost use Rattle.text.specs.Written.{Kept};

use std::io::{Read, Stdin, Stdout, Write};
use text::fault::Fault;
use text::lines;
use text::lines::{Found, Held};
use text::output::Output;

// How many bytes of the input are held: the longest line and its newline.
pub const HELD: usize = 262144;

// How many bytes of the output are gathered before they are handed on.
pub const GATHERED: usize = 65536;

// The most of the output that a turn takes: 32 bytes for a line that was too long, or 4,096 for an answer.
const ROOM: usize = 4128;

// What a program does with a line.
pub trait Session {
    // The line has no newline. What it does is done, and what it prints is put behind the output.
    fn answer(&mut self, line: &[u8], out: &mut Output)
        requires { Room out.old }
        ensures kept { Kept out.old out.new };
}

// Answers line after line until the input ends. A proved loop has to end, so it counts its turns up to a number that
// no run reaches.
pub fn serve<S: Session>(
    stdin: Stdin,
    stdout: Stdout,
    text: &mut [u8],
    out: &mut Output,
    session: &mut S,
)
    requires { turn_room ≤ length out.old.bytes.now }
    ensures { Kept out.old out.new }
{
    let mut held = Held::open_to(0);
    let mut ended = false;
    for _ in 0..u64::MAX {
        if out.bytes.len() - out.at < ROOM {
            hand_on(stdout, out);
        }
        let line = lines::next(text, held);
        held = line.held;
        match line.found {
            Found::Whole { start, stop } => session.answer(&text[start..stop], out),
            Found::TooLong => out.fault(Fault::TooLong),
            Found::Open => {
                hand_on(stdout, out);
                if ended {
                    return;
                }
                held = held.to_front(text);
                let count = read(stdin, &mut text[held.filled..]);
                if count > 0 {
                    held = held.with_more(text, count);
                } else {
                    held = held.with_newline(text);
                    ended = true;
                }
            }
        }
    }
}

// Reads once, into the beginning of the buffer, and answers how many bytes came: none where the input has ended, or
// cannot be read.
fn read(mut stdin: Stdin, into: &mut [u8]) -> usize
    ensures { result ≤ length into.old }
{
    stdin.read(into).unwrap_or(0)
}

// Writes what was gathered, which begins anew then. Where a write fails, the bytes that it left are dropped.
fn hand_on(mut stdout: Stdout, out: &mut Output)
    ensures kept { Kept out.old out.new }
    ensures anew { out.new.at ≡ 0 }
{
    let _ = stdout.write_all(&out.bytes[..out.at]);
    out.at = 0;
}
