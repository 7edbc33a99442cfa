// Writing a word.
ghost use Rattle.std.specs.Prelude.{◌≡◌, ◌<◌};
ghost use Rattle.fibre.specs.Words.{with_control, with_word, unless_requested, write_of};

use crate::good::bad;
use crate::words::Word;
use crate::{End, Next};
use answer::Answer;

impl End {
    // Stores a value in words 0 to 8, unless a request waits to be taken: nothing cancels it. Words 9 to 17 cannot be
    // written.
    pub fn write(self, word: u16, value: u16) -> Next
        ensures { result ≡ write_of self word value }
    {
        if bad(self) {
            return Next {
                answer: Answer::BadEnd,
                end: self,
            };
        }
        let Some(name) = Word::named(word) else {
            return Next {
                answer: Answer::NoRegister,
                end: self,
            };
        };
        match name {
            Word::Control => unless_requested(self, with_control(self, value)),
            Word::Message(i) => unless_requested(self, with_word(self, i, value)),
            Word::Status | Word::Received(_) => Next {
                answer: Answer::ReadOnly,
                end: self,
            },
        }
    }
}

// A request that waits to be taken refuses the write.
fn unless_requested(end: End, stored: End) -> Next
    ensures { result ≡ unless_requested end stored }
{
    if end.transmit.txreq {
        return Next {
            answer: Answer::Blocked,
            end,
        };
    }
    Next {
        answer: Answer::Done,
        end: stored,
    }
}

// Word 0: bit 15 and 11:0 are stored, 14:12 are ignored.
fn with_control(mut end: End, value: u16) -> End
    ensures { result ≡ with_control end value }
{
    end.transmit.txreq = value / 32768 % 2 == 1;
    end.transmit.control = value % 4096;
    end
}

// Words 1 to 8, counted from 0.
fn with_word(mut end: End, i: usize, value: u16) -> End
    requires { i < 8 }
    ensures { result ≡ with_word end i value }
{
    end.transmit.words[i] = value;
    end
}
