// Output that is gathered in lent bytes. What is written goes behind what stands there already, which stays. Room is
// asked for beforehand: nothing is dropped.
ghost use Rattle.std.specs.Prelude.{[], ◌∷◌, ◌++◌, ◌≡◌, ◌≤◌, ◌<◌, ◌+◌, length, take};
ghost use Rattle.text.specs.Printed.{closing_of, decimal_of, glyph_of, hex_of, short_of, valued_of};

use crate::fault::Fault;

// Bytes that the caller lends, of which the first `at` are written.
#[derive(Drop)]
pub struct Output<'a> {
    pub bytes: &'a mut [u8],
    pub at: usize,
    ghost at_in_bounds: { at ≤ length bytes.now },
}

impl<'a> Output<'a> {
    ghost use Rattle.text.specs.Written.{Kept, Told, written};

    // One byte.
    pub fn byte(&mut self, b: u8)
        requires { self.old.at < length self.old.bytes.now }
        ensures at_value { self.new.at ≡ self.old.at + 1 }
        ensures kept { Kept self.old self.new }
        ensures written { written self.new ≡ written self.old ++ (b ∷ []) }
    {
        self.bytes[self.at] = b;
        self.at += 1;
    }

    // Bytes as they are.
    pub fn text(&mut self, bytes: &[u8])
        requires { self.old.at + length bytes.now ≤ length self.old.bytes.now }
        ensures at_value { self.new.at ≡ self.old.at + length bytes.now }
        ensures kept { Kept self.old self.new }
        ensures written { written self.new ≡ written self.old ++ bytes.now }
    {
        let end = self.at + bytes.len();
        self.bytes[self.at..end].copy_from_slice(bytes);
        self.at = end;
    }

    // The lowest digits of a value, in upper case hex.
    pub fn hex(&mut self, value: u64, digits: usize)
        requires { self.old.at + digits ≤ length self.old.bytes.now }
        ensures at_value { self.new.at ≡ self.old.at + digits }
        ensures kept { Kept self.old self.new }
        ensures written { written self.new ≡ written self.old ++ hex_of digits value }
    {
        if digits > 0 {
            self.hex(value / 16, digits - 1);
            self.byte(glyph(value % 16));
        }
    }

    // A value in digits of the base, without leading zeros; of more than `most` digits the lowest ones.
    fn short(&mut self, value: u64, base: u64, most: usize)
        requires base_nonzero { (0 < base) × (base ≤ 16) }
        requires most_in_bounds { self.old.at + most ≤ length self.old.bytes.now }
        ensures at_bound { self.new.at ≤ self.old.at + most }
        ensures kept { Kept self.old self.new }
        ensures written { written self.new ≡ written self.old ++ short_of base most value }
    {
        if most == 0 {
            return;
        }
        if value < base {
            self.byte(glyph(value));
            return;
        }
        self.short(value / base, base, most - 1);
        self.byte(glyph(value % base));
    }

    // A number in decimal.
    pub fn decimal(&mut self, value: u64)
        requires { self.old.at + 20 ≤ length self.old.bytes.now }
        ensures at_bound { self.new.at ≤ self.old.at + 20 }
        ensures kept { Kept self.old self.new }
        ensures written { written self.new ≡ written self.old ++ decimal_of value }
    {
        self.short(value, 10, 20);
    }

    // A value of sixteen bits in hex without leading zeros.
    pub fn short_hex(&mut self, value: u16)
        requires { self.old.at + 4 ≤ length self.old.bytes.now }
        ensures at_bound { self.new.at ≤ self.old.at + 4 }
        ensures kept { Kept self.old self.new }
        ensures written { written self.new ≡ written self.old ++ short_of 16 4 value }
    {
        self.short(u64::from(value), 16, 4);
    }

    // What stands after one of several words: a space, and after the last a newline.
    pub fn closing(&mut self, last: bool)
        requires { self.old.at < length self.old.bytes.now }
        ensures at_value { self.new.at ≡ self.old.at + 1 }
        ensures kept { Kept self.old self.new }
        ensures written { written self.new ≡ written self.old ++ (closing_of last ∷ []) }
    {
        self.byte(if last { b'\n' } else { b' ' });
    }

    // A word, which brings its own spaces, and a number behind it.
    pub fn numbered(&mut self, word: &[u8], number: u8)
        requires { self.old.at + length word.now + 20 ≤ length self.old.bytes.now }
        ensures at_bound { self.new.at ≤ self.old.at + length word.now + 20 }
        ensures kept { Kept self.old self.new }
        ensures written { written self.new ≡ written self.old ++ (word.now ++ decimal_of number) }
    {
        self.text(word);
        self.decimal(u64::from(number));
    }

    // A space and a number in decimal.
    pub fn spaced(&mut self, value: u64)
        requires { self.old.at + 21 ≤ length self.old.bytes.now }
        ensures at_bound { self.new.at ≤ self.old.at + 21 }
        ensures kept { Kept self.old self.new }
        ensures written { written self.new ≡ written self.old ++ (32 ∷ decimal_of value) }
    {
        self.byte(b' ');
        self.decimal(value);
    }

    // A line's value, after its answer.
    pub fn valued(&mut self, value: u16, digits: usize)
        requires { self.old.at + digits + 2 ≤ length self.old.bytes.now }
        ensures at_value { self.new.at ≡ self.old.at + digits + 2 }
        ensures kept { Kept self.old self.new }
        ensures written { written self.new ≡ written self.old ++ valued_of digits value }
    {
        self.byte(b' ');
        self.hex(u64::from(value), digits);
        self.byte(b'\n');
    }

    // What is wrong with a line.
    pub fn fault(&mut self, fault: Fault)
        requires { self.old.at + 32 ≤ length self.old.bytes.now }
        ensures at_bound { self.new.at ≤ self.old.at + 32 }
        ensures kept { Kept self.old self.new }
        ensures stays { take self.old.at self.new.bytes.now ≡ written self.old }
        ensures told { Told (written self.old) (written self.new) }
    {
        self.text(b"? ");
        self.text(fault.reason());
        self.byte(b'\n');
    }
}

fn glyph(digit: u64) -> u8
    requires { digit < 16 }
    ensures { result ≡ glyph_of digit }
{
    if digit < 10 {
        return b'0' + digit as u8;
    }
    b'A' - 10 + digit as u8
}
