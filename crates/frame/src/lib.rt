// The frame of document 01, "The frame": parity, CRC, the twelve symbols of ten bytes, and the frame check.
#![tactic(auto)]

pub mod reason;
mod words;

ghost use Rattle.std.specs.Prelude.{◌≡◌, cond};
ghost use Rattle.crc.specs.Bits.{bits, odd_ones};
ghost use Rattle.laws.specs.Above.{above};
ghost use Rattle.frame.specs.Check.{right_at};
ghost use Rattle.frame.specs.Frame.{crc_of, data_of, even_symbol, odd_symbol, build as build_of, crc_right};
ghost use Rattle.frame.specs.Reason.{fault_at, reason_of, checked_of};

use answer::Answer;
use reason::Reason;

// How many symbols a frame has.
pub const SYMBOLS: usize = 12;

// The largest number that is a received symbol.
pub const LARGEST: u16 = 1023;

// A symbol from here on is marked.
pub const MARKED: u16 = 512;

// Whether the nine bits of a symbol have an odd number of ones.
pub fn parity(symbol: u16) -> bool
    ensures { result ≡ odd_ones (bits 9 symbol) }
{
    (symbol % 512).count_ones() % 2 == 1
}

// The CRC of ten data bytes: bit 0 is S15, bit 15 is S0.
pub fn crc(bytes: [u8; 10]) -> u16
    ensures { result ≡ crc_of bytes }
{
    let [a, b, c, d, e, f, g, h, i, j] = bytes;
    words::crc_of(
        words::four([a, b, c, d]),
        words::four([e, f, g, h]),
        words::two([i, j]),
    )
}

// The symbol with this data and an odd or an even number of ones.
fn symbol_of(byte: u8, odd: bool) -> u16
    ensures { result ≡ cond odd (odd_symbol byte) (even_symbol byte) }
{
    let data = u16::from(byte);
    if parity(data) == odd {
        data
    } else {
        data + 256
    }
}

// Sending step 4: the twelve symbols of ten data bytes. The first is even, the others are odd.
pub fn build(bytes: [u8; 10]) -> [u16; 12]
    ensures { result ≡ build_of bytes }
{
    let [low, high] = crc(bytes).to_le_bytes();
    let mut symbols = [0u16; 12];
    for (place, &byte) in bytes.iter().enumerate() {
        symbols[place] = symbol_of(byte, place > 0);
    }
    symbols[10] = symbol_of(low, true);
    symbols[11] = symbol_of(high, true);
    symbols
}

// The eight data bits of a symbol.
fn data_of(symbol: u16) -> u8
    ensures { result ≡ data_of symbol }
{
    (symbol % 256) as u8
}

// Whether symbols 10 and 11 hold the CRC of symbols 0 to 9.
pub fn crc_right(symbols: [u16; 12]) -> bool
    ensures { result ≡ crc_right symbols }
{
    let mut bytes = [0u8; 10];
    for (place, byte) in bytes.iter_mut().enumerate() {
        *byte = data_of(symbols[place]);
    }
    crc(bytes) == u16::from_le_bytes([data_of(symbols[10]), data_of(symbols[11])])
}

// Whether a symbol may stand at a place of a frame: not marked, even at place 0 and odd at any other. The frame check's
// places are known to a compiler, which decides the branch on the place beforehand: a comparison with `place > 0` would
// cost the check a tenth.
pub fn right_at(symbol: u16, place: usize) -> bool
    ensures { result ≡ right_at place symbol }
{
    if MARKED <= symbol {
        return false;
    }
    if place == 0 {
        !parity(symbol)
    } else {
        parity(symbol)
    }
}

// What is wrong with a symbol that may not stand at its place. A mark counts first: what is under it is not known.
fn fault_at(symbol: u16, place: u8) -> Reason
    ensures { result ≡ fault_at place symbol }
{
    if symbol < MARKED {
        Reason::Parity(place)
    } else {
        Reason::Marked(place)
    }
}

// Whether some number of a list is above the limit. It looks at all of them, so that a compiler can take many at a
// time: a way out at the first would forbid it.
pub fn above(limit: u16, list: &[u16]) -> bool
    ensures { result ≡ above limit list.now }
{
    let mut found = false;
    for &number in list {
        found |= limit < number;
    }
    found
}

// What the frame check gives: its answer, and the reason for it, Nothing where the list was not looked at. The answer
// is one of the table's, 0 too, as `checked_of` says and a caller hands on: so it is no Result.
#[derive(Clone, Copy)]
pub struct Checked {
    pub answer: Answer,
    pub reason: Reason,
}

// The frame check. Its answers are 7, 5, 9 and 0, in that order of tests. With 9 goes the first fault.
pub fn check(list: &[u16]) -> Checked
    ensures { result ≡ checked_of list.now }
{
    let Ok(symbols) = <[u16; SYMBOLS]>::try_from(list) else {
        return Checked {
            answer: Answer::BadLength,
            reason: Reason::Nothing,
        };
    };
    if above(LARGEST, &symbols) {
        return Checked {
            answer: Answer::BadSymbol,
            reason: Reason::Nothing,
        };
    }
    let reason = reason_of(symbols);
    let answer = if reason.is_accepted() {
        Answer::Done
    } else {
        Answer::NotAcceptable
    };
    Checked { answer, reason }
}

// Of twelve symbols: the first fault; if there is none, what the CRC says.
fn reason_of(symbols: [u16; 12]) -> Reason
    ensures { result ≡ reason_of symbols }
{
    for (place, &symbol) in symbols.iter().enumerate() {
        if !right_at(symbol, place) {
            return fault_at(symbol, place as u8);
        }
    }
    if crc_right(symbols) {
        Reason::Accepted
    } else {
        Reason::Crc
    }
}
