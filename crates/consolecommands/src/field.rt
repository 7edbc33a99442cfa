// The fields of an end, whatever the end: what dump prints and set writes.
ghost use Rattle.std.specs.Prelude.{◌≡◌, ◌≤◌, ◌<◌, IfOk, IfNone, IfSome, All, List, ℕ};
ghost use Rattle.consolecommands.specs.Fields.{Placed, Sets};
ghost use Rattle.text.specs.Numbers.{first_of};
ghost use Rattle.text.specs.Words.{rest_of, words_of};

use text::fault::Fault;
use text::numbers::{DECIMAL, HEX};
use text::words;

// A field of an end: its name, how many elements it has, 1 where it is no array, and the largest value of one.
pub trait Field: Copy + 'static {
    ghost all_of: { List Self };

    ghost name_of: { Self → List ℕ };

    ghost elements_of: { Self → ℕ };

    ghost largest_of: { Self → ℕ };

    // All fields, in the order in which dump prints them.
    fn all() -> &'static [Self]
        ensures value { result.now ≡ all_of };

    fn name(self) -> &'static [u8]
        ensures value { result.now ≡ name_of self };

    fn elements(self) -> usize
        ensures value { result ≡ elements_of self };

    fn largest(self) -> u64
        ensures value { result ≡ largest_of self }
        ensures in_bounds { result ≤ 65535 };
}

// What set writes: the value, in an element of the field.
#[derive(Clone, Copy)]
pub struct Setting<F> {
    pub field: F,
    pub element: usize,
    pub value: u16,
}

// The field of that name: the one at the word's place among the names of all.
pub fn named<F: Field>(word: &[u8]) -> Option<F>
    ensures place { Placed F.name_of F.all_of word.now result }
    ensures named { IfSome result (λ field. F.name_of field ≡ word.now) }
    ensures other { IfNone result (All (λ field. ¬ (F.name_of field ≡ word.now)) F.all_of) }
{
    F::all().iter().copied().find(|field| field.name() == word)
}

impl<F: Field> Setting<F> {
    // The field that a line names, and behind it the value, and before that the element where the field is an array.
    pub fn read(line: &[u8]) -> Result<Setting<F>, Fault>
        ensures reads { IfOk result
            (λ s. Sets F.name_of F.elements_of F.largest_of (words_of line.now) s.field s.element s.value) }
        ensures element { IfOk result (λ s. s.element < F.elements_of s.field) }
        ensures value { IfOk result (λ s. s.value ≤ F.largest_of s.field) }
    {
        let (word, rest) = words::next(line).ok_or(Fault::Field)?;
        let field: F = named(word).ok_or(Fault::Field)?;
        let (element, rest) = element_of(field.elements(), rest)?;
        let value = HEX.up_to(field.largest()).last(rest)?;
        Ok(Setting {
            field,
            element,
            value,
        })
    }
}

// The element of an array of so many, and what stands behind it. It has no word where there is only one.
fn element_of(count: usize, line: &[u8]) -> Result<(usize, &[u8]), Fault>
    ensures within { IfOk result (λ r. r.0 < count) }
    ensures single { count ≡ 1 → IfOk result (λ r. (r.0 ≡ 0) × (words_of r.1.now ≡ words_of line.now)) }
    ensures several { ¬ (count ≡ 1) → IfOk result (λ r.
        (first_of 10 65535 (words_of line.now) ≡ Ok r.0) × (words_of r.1.now ≡ rest_of (words_of line.now))) }
{
    if count == 1 {
        return Ok((0, line));
    }
    let (number, rest) = DECIMAL.next(line)?;
    let element = usize::from(number);
    if element < count {
        Ok((element, rest))
    } else {
        Err(Fault::TooLarge)
    }
}
