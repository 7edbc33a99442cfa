// The sending side: a block is offered, and its parts are handed out in turn.
ghost use Rattle.std.specs.Prelude.{◌≡◌, ◌<◌};
ghost use Rattle.report.specs.Sending.{word_of, refusal, then_write, written_of};
ghost use Rattle.report.specs.Sending.{fresh_sending, offer_of, push_of};

use crate::part::Part;
use crate::{Offered, PARTS, Push, Pushed, SendingHost};
use answer::Answer;
use end::{End, Next};

impl SendingHost {
    // No block is under way.
    pub fn fresh() -> SendingHost
        ensures { result ≡ fresh_sending }
    {
        SendingHost {
            block: [0; 128],
            next: PARTS,
        }
    }

    // A block to be sent, from number 0 on. While an earlier one has numbers that were not accepted yet it is refused.
    pub fn offer(self, block: [u8; 128]) -> Offered
        ensures { result ≡ offer_of self block }
    {
        if self.next < PARTS {
            return Offered {
                answer: Answer::Blocked,
                host: self,
            };
        }
        Offered {
            answer: Answer::Done,
            host: SendingHost { block, next: 0 },
        }
    }

    // The next part is written to the end's registers. It counts when its message is accepted.
    pub fn push(self, end: End) -> Pushed
        ensures { result ≡ push_of self end }
    {
        let SendingHost { block, next } = self;
        let Some(part) = Part::numbered(next) else {
            return Pushed {
                what: Push::Idle,
                host: self,
                end,
            };
        };
        let written = written(block, part, end);
        if written.answer != Answer::Done {
            return Pushed {
                what: refusal(written.answer),
                host: SendingHost { block, next },
                end: written.end,
            };
        }
        Pushed {
            what: Push::Part(next),
            host: SendingHost {
                block,
                next: next + 1,
            },
            end: written.end,
        }
    }
}

// The message of a part is written: its bytes to 3.2309 to 3.2312, then its number to 3.2308.
fn written(block: [u8; 128], part: Part, end: End) -> Next
    ensures { result ≡ written_of block part.number end }
{
    let first = end.write(2309, word(block, part, 0));
    let second = then_write(first, 2310, word(block, part, 1));
    let third = then_write(second, 2311, word(block, part, 2));
    let fourth = then_write(third, 2312, word(block, part, 3));
    then_write(fourth, 2308, 32768 + u16::from(part.number) * 256)
}

// Bytes 2i and 2i + 1 of a part, as a register holds them: the even one in 7:0, the odd one in 15:8.
fn word(block: [u8; 128], part: Part, i: usize) -> u16
    requires { i < 4 }
    ensures { result ≡ word_of block part.number i }
{
    let at = part.place() + 2 * i;
    u16::from_le_bytes([block[at], block[at + 1]])
}

// One more write, unless one before it was refused.
fn then_write(before: Next, register: u16, value: u16) -> Next
    ensures { result ≡ then_write register value before }
{
    if before.answer != Answer::Done {
        return before;
    }
    before.end.write(register, value)
}

// What a refused write means to the host: it waits while a message is pending, which is answer 4.
fn refusal(answer: Answer) -> Push
    ensures { result ≡ refusal answer }
{
    match answer {
        Answer::Blocked => Push::Waits,
        _ => Push::Refused(answer),
    }
}
