// Lists of numbers on a line.
ghost use Rattle.std.specs.Prelude.{◌≡◌, ◌≤◌, length, IfOk};
ghost use Rattle.text.specs.Numbers.{list_of, Lists};
ghost use Rattle.text.specs.Words.{words_of};

use crate::fault::Fault;
use crate::numbers::HEX;
use crate::words::{is_last, next};

// The words of a line, as hex numbers, none above the limit: how many there are.
pub fn read(line: &[u8], most: u64, numbers: &mut [u16]) -> Result<usize, Fault>
    requires { most ≤ 65535 }
    ensures value { Lists result numbers.new (list_of most (length numbers.old) (words_of line.now)) }
    ensures count_in_bounds { IfOk result (λ n. n ≤ length numbers.new) }
    ensures room { length numbers.new ≡ length numbers.old }
{
    let spelling = HEX.up_to(most);
    let mut rest = line;
    for count in 0..numbers.len() {
        let Some((word, behind)) = next(rest) else {
            return Ok(count);
        };
        numbers[count] = spelling.number(word)?;
        rest = behind;
    }
    if !is_last(rest) {
        return Err(Fault::Count);
    }
    Ok(numbers.len())
}
