// The CRC of ten bytes in three words: a few shifts, no table, no loop over bits.
//
// The generator is (x + 1) times (x^15 + x + 1). By the second factor x^15 is x + 1, its square x^30 is x^2 + 1, and
// x^60 is x^4 + 1: bits before a high power of x may stand before two low ones instead. By the first factor the CRC has
// an odd number of ones exactly when the ten bytes have. Bit 0 of a word is the highest power, as bit 0 of the CRC is
// S15, so that a shift to the left lowers it.
ghost use Rattle.std.specs.Prelude.{◌++◌, ◌≡◌};
ghost use Rattle.crc.specs.Bits.{bits, odd_ones};
ghost use Rattle.crc.specs.Crc.{crc};
ghost use Rattle.frame.specs.Frame.{generator, stream};

// The second factor: x^15 is bit 0, x is bit 14, 1 is bit 15.
const FACTOR: u16 = 0xC001;

// Two bytes as a word, the first one lowest.
pub fn two(bytes: [u8; 2]) -> u16
    ensures { bits 16 result ≡ stream bytes }
{
    u16::from_le_bytes(bytes)
}

// Four bytes likewise.
pub fn four(bytes: [u8; 4]) -> u32
    ensures { bits 32 result ≡ stream bytes }
{
    u32::from_le_bytes(bytes)
}

// Whether a word has an odd number of ones.
fn odd(word: u32) -> bool
    ensures { result ≡ odd_ones (bits 32 word) }
{
    word.count_ones() % 2 == 1
}

// The CRC of the eighty bits of three words.
pub fn crc_of(first: u32, second: u32, third: u16) -> u16
    ensures { bits 16 result ≡ crc generator (bits 32 first ++ (bits 32 second ++ bits 16 third)) }
{
    // The words stand before x^64, x^32 and x^16, which are x^8 + x^4, x^4 + x^2 and x^2 + x.
    let a = u64::from(first);
    let b = u64::from(second);
    let c = u64::from(third);
    let forty = a ^ (a << 4) ^ (b << 4) ^ (b << 6) ^ (c << 22) ^ (c << 23);
    // The first ten of forty bits stand before x^30, which is x^2 + 1.
    let ten = forty % 1024;
    let thirty = (forty >> 10) ^ (ten << 20) ^ (ten << 18);
    // The first fifteen of thirty stand before x^15, which is x + 1.
    let fifteen = thirty % 32768;
    let sixteen = fifteen ^ (fifteen << 1) ^ ((thirty >> 15) << 1);
    let remainder = (sixteen % 65536) as u16;
    // By the second factor that is the CRC, or the CRC with the factor added. The parity tells which.
    if odd(first ^ second ^ u32::from(third) ^ u32::from(remainder)) {
        remainder ^ FACTOR
    } else {
        remainder
    }
}
