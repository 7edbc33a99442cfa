// Words that stand alone.
ghost use Rattle.std.specs.Prelude.{◌≡◌, true, false, MatchResult};
ghost use Rattle.text.specs.Words.{none_of, words_of};
ghost use Rattle.text.specs.declared.fault.Fault.{Fault};

use text::fault::Fault;
use text::words::is_last;

// What is asked by a word behind which no other one stands.
pub fn alone<T: Copy>(asked: T, rest: &[u8]) -> Result<T, Fault>
    ensures { MatchResult result
        (λ a. (a ≡ asked) × (none_of (words_of rest.now) ≡ true))
        (λ f. (f ≡ Fault.Extra) × (none_of (words_of rest.now) ≡ false)) }
{
    if is_last(rest) {
        Ok(asked)
    } else {
        Err(Fault::Extra)
    }
}
