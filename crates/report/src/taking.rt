// The taking side: messages fill the part block, which is handed over when it is whole.
ghost use Rattle.std.specs.Prelude.{◌≡◌, true, false, MatchOption};
ghost use Rattle.report.specs.Taking.{filled_of, in_turn, fresh_taking, whole_or, take_of, words_of, pull_of};

use crate::part::Part;
use crate::{Pull, Pulled, Take, Taken, TakingHost};
use answer::Answer;
use end::End;

// What the four reads of a message give: its bytes, and the end after them.
#[derive(Clone, Copy)]
struct Words {
    bytes: [u8; 8],
    end: End,
}

impl TakingHost {
    // A fresh block of 128 zero bytes, and number 0 in turn.
    pub fn fresh() -> TakingHost
        ensures { result ≡ fresh_taking }
    {
        TakingHost {
            block: [0; 128],
            turn: 0,
        }
    }

    // A message, by its number and its bytes. In turn it fills the part block, which number 15 makes whole. Out of turn
    // it drops the part block, and 0 starts the next one.
    pub fn take(self, number: u8, bytes: [u8; 8]) -> Taken
        ensures { result ≡ take_of self number bytes }
    {
        let TakingHost { block, turn } = self;
        if let Some(part) = in_turn(turn, number) {
            return whole_or(filled(block, part, bytes), part);
        }
        if number == 0 {
            let first = Part { number: 0 };
            return whole_or(filled([0; 128], first, bytes), first);
        }
        let fresh = TakingHost::fresh();
        Taken {
            what: Take::Out(number),
            block: [0; 128],
            host: fresh,
        }
    }

    // A message is taken from the end, where one is there, and goes to take.
    pub fn pull(self, end: End) -> Pulled
        ensures { result ≡ pull_of self end }
    {
        let status = end.read(2313);
        if status.answer != Answer::Done {
            return Pulled {
                what: Pull::Refused(status.answer),
                block: [0; 128],
                host: self,
                end: status.end,
            };
        }
        if status.value / 32768 % 2 != 1 {
            return Pulled {
                what: Pull::Empty,
                block: [0; 128],
                host: self,
                end: status.end,
            };
        }
        let Words { bytes, end } = words_of(status.end);
        let Taken { what, block, host } = self.take((status.value / 256 % 16) as u8, bytes);
        Pulled {
            what: Pull::Took(what),
            block,
            host,
            end,
        }
    }
}

// The part of that number, where the number is in turn.
fn in_turn(turn: u8, number: u8) -> Option<Part>
    ensures { MatchOption result (in_turn turn number ≡ false)
        (λ part. (in_turn turn number ≡ true) × (part.number ≡ number)) }
{
    if number == turn {
        Part::numbered(number)
    } else {
        None
    }
}

// The part block with a part in it.
fn filled(block: [u8; 128], part: Part, bytes: [u8; 8]) -> [u8; 128]
    ensures { result ≡ filled_of block part.number bytes }
{
    let at = part.place();
    let mut more = block;
    more[at..at + 8].copy_from_slice(&bytes);
    more
}

// A part stands in the part block: at number 15 the block is handed over, and never before.
fn whole_or(block: [u8; 128], part: Part) -> Taken
    ensures { result ≡ whole_or block part.number }
{
    if part.number == 15 {
        return Taken {
            what: Take::Whole,
            block,
            host: TakingHost::fresh(),
        };
    }
    Taken {
        what: Take::Part(part.number),
        block: [0; 128],
        host: TakingHost {
            block,
            turn: part.number + 1,
        },
    }
}

// The bytes of a message, from 3.2314 to 3.2317 in that order.
fn words_of(end: End) -> Words
    ensures { result ≡ words_of end }
{
    let first = end.read(2314);
    let second = first.end.read(2315);
    let third = second.end.read(2316);
    let fourth = third.end.read(2317);
    let [a, b] = first.value.to_le_bytes();
    let [c, d] = second.value.to_le_bytes();
    let [e, f] = third.value.to_le_bytes();
    let [g, h] = fourth.value.to_le_bytes();
    Words {
        bytes: [a, b, c, d, e, f, g, h],
        end: fourth.end,
    }
}
