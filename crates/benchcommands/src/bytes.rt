// Lists of numbers as bytes.
ghost use Rattle.std.specs.Prelude.{◌≡◌, ◌%◌, length, map, SomeIff};

// The lowest eight bits of each number of a list, where it has exactly so many.
pub fn bytes_of<const N: usize>(list: &[u16]) -> Option<[u8; N]>
    ensures { SomeIff result (length list.now ≡ N) (map (λ x. x % 256) list.now) }
{
    if list.len() != N {
        return None;
    }
    let mut bytes = [0; N];
    for (i, number) in list.iter().enumerate() {
        bytes[i] = (number % 256) as u8;
    }
    Some(bytes)
}
