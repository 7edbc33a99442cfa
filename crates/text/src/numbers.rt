// Numbers as words spell them.
ghost use Rattle.std.specs.Prelude.{◌≡◌, ◌-◌, ◌≤◌, ◌<◌, length, drop, IfOk, MatchResult};
ghost use Rattle.text.specs.Numbers.{digit_of, first_of, last_of, long_of, number_in, number_of};
ghost use Rattle.text.specs.declared.fault.Fault.{Fault};
ghost use Rattle.text.specs.Words.{rest_of, words_of};

use crate::fault::Fault;
use crate::words::{is_last, next, past_word};

// How a number is spelled: in digits of a base, and none above the most.
#[derive(Clone, Copy)]
pub struct Spelling {
    pub base: u64,
    pub most: u64,
    ghost base_bound: { base ≤ 16 },
    ghost most_bound: { most ≤ 65535 },
}

// The largest number of all.
pub const MOST: u64 = 65535;

// The two bases, with numbers up to the largest.
pub const DECIMAL: Spelling = Spelling {
    base: 10,
    most: MOST,
};

pub const HEX: Spelling = Spelling {
    base: 16,
    most: MOST,
};

impl Spelling {
    // The same, with numbers up to another one.
    pub fn up_to(self, most: u64) -> Spelling
        requires { most ≤ 65535 }
        ensures base_value { result.base ≡ self.base }
        ensures most_value { result.most ≡ most }
    {
        Spelling {
            base: self.base,
            most,
        }
    }

    // The number that a word spells.
    pub fn number(self, word: &[u8]) -> Result<u16, Fault>
        ensures value { result ≡ number_of self.base self.most word.now }
        ensures within { IfOk result (λ n. n ≤ self.most) }
    {
        let value = spelled_long(word, self.base, self.most)?;
        Ok(value as u16)
    }

    // The number that the next word spells, and what stands behind it.
    pub fn next(self, line: &[u8]) -> Result<(u16, &[u8]), Fault>
        ensures value { number_in result ≡ first_of self.base self.most (words_of line.now) }
        ensures words { IfOk result (λ n. words_of n.1.now ≡ rest_of (words_of line.now)) }
        ensures place { IfOk result (λ n. n.1.now ≡ drop (length line.now - length n.1.now) line.now) }
        ensures within { IfOk result (λ n. n.0 ≤ self.most) }
    {
        let (word, rest) = next(line).ok_or(Fault::Missing)?;
        Ok((self.number(word)?, rest))
    }

    // The number that the next word spells, where it is the last one.
    pub fn last(self, line: &[u8]) -> Result<u16, Fault>
        ensures value { result ≡ last_of self.base self.most (words_of line.now) }
        ensures within { IfOk result (λ n. n ≤ self.most) }
    {
        if !is_last(past_word(line)) {
            return Err(Fault::Extra);
        }
        let (number, _) = self.next(line)?;
        Ok(number)
    }
}

// The number of up to thirty-two bits that a word spells in digits of the base, none above the limit.
pub fn spelled_long(word: &[u8], base: u64, most: u64) -> Result<u32, Fault>
    requires { (base ≤ 16) × (most ≤ 4294967295) }
    ensures value { result ≡ long_of base most 0 word.now }
    ensures within { IfOk result (λ n. n ≤ most) }
{
    let mut value: u64 = 0;
    for &byte in word {
        value = value * base + digit(byte, base)?;
        if value > most {
            return Err(Fault::TooLarge);
        }
    }
    Ok(value as u32)
}

// What a digit of the base counts, in either case.
fn digit(byte: u8, base: u64) -> Result<u64, Fault>
    requires { base ≤ 16 }
    ensures { MatchResult result (λ d. (d ≡ digit_of byte) × (d < base)) (λ f. (f ≡ Fault.Digits) × (base ≤ digit_of byte)) }
{
    match char::from(byte).to_digit(16) {
        Some(digit) if u64::from(digit) < base => Ok(u64::from(digit)),
        _ => Err(Fault::Digits),
    }
}
