// Reading a word.
ghost use Rattle.std.specs.Prelude.{◌≡◌};
ghost use Rattle.fibre.specs.Words.{control, status, emptied, read_of};

use crate::good::Good;
use crate::words::Word;
use crate::{End, Read};
use answer::Answer;
use weights::bit;

impl End {
    // A word's value. Reading word 17 with RXVAL set drops RXVAL, and tells the partner that the message was read.
    pub fn read(self, word: u16) -> Read
        ensures { result ≡ read_of self word }
    {
        let Some(good) = self.good() else {
            return Read {
                answer: Answer::BadEnd,
                value: 0,
                end: self,
            };
        };
        let Some(name) = Word::named(word) else {
            return Read {
                answer: Answer::NoRegister,
                value: 0,
                end: self,
            };
        };
        let (value, end) = match name {
            Word::Control => (good.control(), self),
            Word::Message(i) => (self.transmit.words[i], self),
            Word::Status => (good.status(), self),
            Word::Received(i) => (self.receive.words[i], emptied(i == 7, self)),
        };
        Read {
            answer: Answer::Done,
            value,
            end,
        }
    }
}

impl Good {
    // Word 0: 15 TXREQ, 14 PHYT, 13 MERT, 12 MSGT, 11:0 control.
    fn control(self) -> u16
        ensures { result ≡ control self.end }
    {
        let end = self.end;
        bit(end.transmit.txreq, 32768)
            + bit(end.transmit.phyt, 16384)
            + bit(end.transmit.mert, 8192)
            + bit(end.sent.msgt, 4096)
            + end.transmit.control
    }

    // Word 9: 15 RXVAL, 12 toggle, 11:0 control.
    fn status(self) -> u16
        ensures { result ≡ status self.end }
    {
        let receive = self.end.receive;
        bit(receive.rxval, 32768) + bit(receive.toggle, 4096) + receive.control
    }
}

// The last word is read: RXVAL drops, and the sent MERT becomes the message's toggle. With RXVAL 0 nothing changes.
fn emptied(last: bool, mut end: End) -> End
    ensures { result ≡ emptied last end }
{
    if last & end.receive.rxval {
        end.receive.rxval = false;
        end.sent.mert = end.receive.toggle;
    }
    end
}
