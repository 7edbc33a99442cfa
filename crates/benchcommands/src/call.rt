// What a line asks of an end, or of the reporting host beside it.
ghost use Rattle.std.specs.Prelude.{IfOk};
ghost use Rattle.benchcommands.specs.Asked.{Asks, Fits, Reads};
ghost use Rattle.text.specs.Words.{words_of};

use crate::fields::Field;
use consolecommands::alone::alone;
use consolecommands::field::Setting;
use consolecommands::numbers::two_numbers;
use text::fault::Fault;
use text::numbers::{DECIMAL, HEX};
use text::words::next;

// What was read whole. Behind a call on the reporting host stands what is left of the line: of offer, the block.
#[derive(Clone, Copy)]
pub enum Asked<'a> {
    Call(Call),
    Dump,
    Set(Setting<Field>),
    Host(HostCall, &'a [u8]),
}

// A call on an end.
#[derive(Clone, Copy, Debug, PartialEq, Eq)]
pub enum Call {
    Reset,
    Send,
    Take(u16),
    Read(u16),
    Write(u16, u16),
    Health(u16),
    Present,
}

// A call on the reporting host of an end.
#[derive(Clone, Copy, Debug, PartialEq, Eq)]
pub enum HostCall {
    Offer,
    Push,
    Pull,
    Report,
}

// What is asked of an end, or what was wrong with it.
pub fn on(line: &[u8]) -> Result<Asked<'_>, Fault>
    ensures reads { IfOk result (Reads (words_of line.now)) }
    ensures fits { IfOk result Fits }
{
    let (word, rest) = next(line).ok_or(Fault::Call)?;
    asked_of(word, rest)
}

// What a word asks with what stands behind it.
fn asked_of<'a>(word: &[u8], rest: &'a [u8]) -> Result<Asked<'a>, Fault>
    ensures asks { IfOk result (Asks word.now (words_of rest.now)) }
    ensures fits { IfOk result Fits }
{
    match word {
        b"reset" => alone(Asked::Call(Call::Reset), rest),
        b"send" => alone(Asked::Call(Call::Send), rest),
        b"take" => Ok(Asked::Call(Call::Take(HEX.last(rest)?))),
        b"read" => Ok(Asked::Call(Call::Read(DECIMAL.last(rest)?))),
        b"write" => {
            let (register, value) = two_numbers(rest, DECIMAL, HEX)?;
            Ok(Asked::Call(Call::Write(register, value)))
        }
        b"health" => Ok(Asked::Call(Call::Health(HEX.last(rest)?))),
        b"present" => alone(Asked::Call(Call::Present), rest),
        b"dump" => alone(Asked::Dump, rest),
        b"set" => Ok(Asked::Set(Setting::read(rest)?)),
        b"offer" => Ok(Asked::Host(HostCall::Offer, rest)),
        b"push" => alone(Asked::Host(HostCall::Push, rest), rest),
        b"pull" => alone(Asked::Host(HostCall::Pull, rest), rest),
        b"report" => alone(Asked::Host(HostCall::Report, rest), rest),
        _ => Err(Fault::Call),
    }
}
