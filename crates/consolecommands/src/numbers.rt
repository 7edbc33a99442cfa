// Numbers that belong together in a command.
ghost use Rattle.std.specs.Prelude.{◌≡◌, ◌≤◌, IfOk};
ghost use Rattle.consolecommands.specs.Commands.{two_of};
ghost use Rattle.text.specs.Words.{words_of};

use text::fault::Fault;
use text::numbers::Spelling;

// The last two words, as the two numbers that they spell.
pub fn two_numbers(line: &[u8], first: Spelling, second: Spelling) -> Result<(u16, u16), Fault>
    ensures value { result ≡ two_of first.base first.most second.base second.most (words_of line.now) }
    ensures within { IfOk result (λ r. (r.0 ≤ first.most) × (r.1 ≤ second.most)) }
{
    let (number, rest) = first.next(line)?;
    Ok((number, second.last(rest)?))
}
