// What a line asks of an end.
ghost use Rattle.std.specs.Prelude.{◌≡◌, IfOk};
ghost use Rattle.fibrecommands.specs.Calls.{Asks, Bools, Reads, Within};
ghost use Rattle.text.specs.Numbers.{list_of, these};
ghost use Rattle.text.specs.Words.{words_of};

use crate::fields::Field;
use consolecommands::alone::alone;
use consolecommands::field::Setting;
use consolecommands::numbers::two_numbers;
use text::fault::Fault;
use text::lists;
use text::numbers::{DECIMAL, HEX};
use text::words::next;

// How many numbers a block is on a line: whether it is marked bad, MSGT, PHYT, MERT, the control, and the eight words.
pub const NUMBERS: usize = 13;

// How many of them, the first ones, say yes or no.
const BOOLS: usize = 4;

// A call on an end with what stands behind its name, or what the console does with an end itself: dump and set.
#[derive(Clone, Copy)]
pub enum Call {
    Reset,
    Send,
    Take([u16; NUMBERS]),
    Read(u16),
    Write(u16, u16),
    Dump,
    Set(Setting<Field>),
}

// What a line asks for.
pub fn parsed(line: &[u8]) -> Result<Call, Fault>
    ensures reads { IfOk result (Reads (words_of line.now)) }
    ensures within { IfOk result Within }
{
    let (word, rest) = next(line).ok_or(Fault::Call)?;
    call_of(word, rest)
}

// What a word asks for with what stands behind it.
fn call_of(word: &[u8], rest: &[u8]) -> Result<Call, Fault>
    ensures asks { IfOk result (Asks word.now (words_of rest.now)) }
    ensures within { IfOk result Within }
{
    match word {
        b"reset" => alone(Call::Reset, rest),
        b"send" => alone(Call::Send, rest),
        b"take" => Ok(Call::Take(block(rest)?)),
        b"read" => Ok(Call::Read(DECIMAL.last(rest)?)),
        b"write" => {
            let (word, value) = two_numbers(rest, DECIMAL, HEX)?;
            Ok(Call::Write(word, value))
        }
        b"dump" => alone(Call::Dump, rest),
        b"set" => Ok(Call::Set(Setting::read(rest)?)),
        _ => Err(Fault::Call),
    }
}

// A block's numbers. One that says yes or no is 0 or 1.
fn block(line: &[u8]) -> Result<[u16; NUMBERS], Fault>
    ensures listed { IfOk result (λ l. list_of 65535 13 (words_of line.now) ≡ these l) }
    ensures bools { IfOk result Bools }
{
    let mut numbers = [0; NUMBERS];
    if lists::read(line, 65535, &mut numbers)? < NUMBERS {
        return Err(Fault::Missing);
    }
    if numbers[..BOOLS].iter().all(|number| *number <= 1) {
        Ok(numbers)
    } else {
        Err(Fault::TooLarge)
    }
}
