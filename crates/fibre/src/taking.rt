// Taking, one block.
ghost use Rattle.std.specs.Prelude.{◌≡◌};
ghost use Rattle.fibre.specs.Taking.{enters, heard, stored, take_of};

use crate::good::bad;
use crate::{Block, End, LARGEST, Next, Receive};
use answer::Answer;

impl End {
    // A block arrives, whole or marked bad. A bad one changes nothing, whatever stands in it.
    pub fn take(self, marked: bool, block: Block) -> Next
        ensures { result ≡ take_of self marked block }
    {
        if bad(self) | (block.control > LARGEST) {
            return Next {
                answer: Answer::BadEnd,
                end: self,
            };
        }
        if marked {
            return Next {
                answer: Answer::Done,
                end: self,
            };
        }
        Next {
            answer: Answer::Done,
            end: stored(block, heard(block, self)),
        }
    }
}

// PHYT and MERT become the block's.
fn heard(block: Block, mut end: End) -> End
    ensures { result ≡ heard block end }
{
    end.transmit.phyt = block.phyt;
    end.transmit.mert = block.mert;
    end
}

// The block brings a message: its MSGT differs from the sent PHYT, and RXVAL is 0.
fn enters(block: Block, end: End) -> bool
    ensures { result ≡ enters block end }
{
    (block.msgt != end.sent.phyt) & !end.receive.rxval
}

// The message is stored, RXVAL rises, and the sent PHYT becomes its toggle.
fn stored(block: Block, mut end: End) -> End
    ensures { result ≡ stored (enters block end) block end }
{
    if enters(block, end) {
        let Block {
            msgt,
            control,
            words,
            ..
        } = block;
        end.receive = Receive {
            rxval: true,
            toggle: msgt,
            control,
            words,
        };
        end.sent.phyt = msgt;
    }
    end
}
