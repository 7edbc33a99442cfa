// Sending, one block.
ghost use Rattle.std.specs.Prelude.{◌≡◌};
ghost use Rattle.fibre.specs.Sending.{loads, loaded, send_of};

use crate::good::bad;
use crate::{Block, End, Sent, Transmit};
use answer::Answer;

impl End {
    // The block goes out. A request is taken first, if PHYT equals MSGT.
    pub fn send(self) -> Sent
        ensures { result ≡ send_of self }
    {
        if bad(self) {
            return Sent {
                answer: Answer::BadEnd,
                block: Block::default(),
                end: self,
            };
        }
        let end = loaded(self);
        Sent {
            answer: Answer::Done,
            block: end.sent,
            end,
        }
    }
}

// A request is taken: TXREQ is 1, and PHYT says that the message before it was received.
fn loads(end: End) -> bool
    ensures { result ≡ loads end }
{
    end.transmit.txreq & (end.transmit.phyt == end.sent.msgt)
}

// Where a request is taken MSGT flips, the 140 bits load together and TXREQ falls.
fn loaded(mut end: End) -> End
    ensures { result ≡ loaded (loads end) end }
{
    if loads(end) {
        let Transmit { control, words, .. } = end.transmit;
        end.sent.msgt = !end.sent.msgt;
        end.sent.control = control;
        end.sent.words = words;
        end.transmit.txreq = false;
    }
    end
}
