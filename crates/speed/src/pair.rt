// Two ends joined with delays 0, with a message now and then, and a sum over what is sent and read.
ghost use Rattle.std.specs.Prelude.{◌≡◌};
ghost use Rattle.speed.specs.Pair.{plus, slot, reported, emptied, turn, start, run};

use end::End;

// A message is written at a, and the register at b read, once in so many slots.
const PERIOD: u32 = 48;

#[derive(Clone, Copy)]
pub struct Pair {
    pub a: End,
    pub b: End,
    pub sum: u64,
}

// A sum with one number more.
fn plus(sum: u64, number: u16) -> u64
    ensures { result ≡ plus sum number }
{
    sum % 4294967296 * 31 + u64::from(number)
}

// In a slot both send, then both take what arrives.
fn slot(pair: Pair) -> Pair
    ensures { result ≡ slot pair }
{
    let from_a = pair.a.send();
    let from_b = pair.b.send();
    Pair {
        a: from_a.end.take(from_b.symbol).end,
        b: from_b.end.take(from_a.symbol).end,
        sum: plus(plus(pair.sum, from_a.symbol), from_b.symbol),
    }
}

// The host at a writes a message, made of a number.
fn reported(mut pair: Pair, number: u16) -> Pair
    ensures { result ≡ reported pair number }
{
    let bytes = pair.a.write(2309, number);
    let control = bytes.end.write(2308, number % 16 * 256 + 32768);
    pair.a = control.end;
    pair
}

// The host at b reads what has come, and empties the receive register.
fn emptied(pair: Pair) -> Pair
    ensures { result ≡ emptied pair }
{
    let status = pair.b.read(2313);
    let bytes = status.end.read(2317);
    Pair {
        a: pair.a,
        b: bytes.end,
        sum: plus(plus(pair.sum, status.value), bytes.value),
    }
}

// One slot, with its host calls before it; left says how many slots are to come.
fn turn(left: u32, pair: Pair) -> Pair
    ensures { result ≡ turn left pair }
{
    if left % PERIOD == 0 {
        let number = (left % 65536) as u16;
        return slot(emptied(reported(pair, number)));
    }
    slot(pair)
}

// So many slots from reset.
pub fn slots(count: u32) -> Pair
    ensures { result ≡ run count start }
{
    let mut pair = Pair {
        a: End::reset(),
        b: End::reset(),
        sum: 0,
    };
    for left in (1..=count).rev() {
        pair = turn(left, pair);
    }
    pair
}
