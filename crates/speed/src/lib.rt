// What tests/speed measures: proved calls under plain names, for a Rust or C program to link.
#![tactic(auto)]

mod pair;

ghost use Rattle.std.specs.Prelude.{◌≡◌};
ghost use Rattle.answer.specs.Number.{number_of};
ghost use Rattle.frame.specs.Check.{check_of};
ghost use Rattle.frame.specs.Frame.{crc_of, build};
ghost use Rattle.finder.specs.Finder.{find_of};
ghost use Rattle.speed.specs.Pair.{start, run};

use pair::slots;

// The CRC of ten bytes.
#[unsafe(no_mangle)]
pub extern "C" fn simhadol_crc(bytes: &[u8; 10]) -> u16
    ensures { result ≡ crc_of bytes.now }
{
    frame::crc(*bytes)
}

// The twelve symbols of ten bytes.
#[unsafe(no_mangle)]
pub extern "C" fn simhadol_build(bytes: &[u8; 10], symbols: &mut [u16; 12])
    ensures { symbols.new ≡ build bytes.now }
{
    *symbols = frame::build(*bytes);
}

// The frame check's answer number.
#[unsafe(no_mangle)]
pub extern "C" fn simhadol_check(list: &[u16]) -> u8
    ensures { result ≡ number_of (check_of list.now) }
{
    u8::from(frame::check(list).answer)
}

// The finder's answer number.
#[unsafe(no_mangle)]
pub extern "C" fn simhadol_found(list: &[u16]) -> u8
    ensures { result ≡ number_of (find_of list.now).answer }
{
    u8::from(finder::place(list).answer)
}

// The finder's place.
#[unsafe(no_mangle)]
pub extern "C" fn simhadol_place(list: &[u16]) -> usize
    ensures { result ≡ (find_of list.now).place }
{
    finder::place(list).place
}

// The sum over so many slots of two ends from reset.
#[unsafe(no_mangle)]
pub extern "C" fn simhadol_slots(count: u32) -> u64
    ensures { result ≡ (run count start).sum }
{
    slots(count).sum
}
