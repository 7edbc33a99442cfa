// The message of a frame.
ghost use Rattle.std.specs.Prelude.{◌≡◌, map, take, drop};
ghost use Rattle.frame.specs.Frame.{data_of};

// The message bytes of a frame: the data of its symbols 2 to 9.
pub fn message_of(symbols: [u16; 12]) -> [u8; 8]
    ensures { result ≡ map data_of (take 8 (drop 2 symbols)) }
{
    let mut bytes = [0u8; 8];
    for (i, byte) in bytes.iter_mut().enumerate() {
        *byte = (symbols[i + 2] % 256) as u8;
    }
    bytes
}
