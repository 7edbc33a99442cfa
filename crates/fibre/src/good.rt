// Answer 1, and the end after reset.
ghost use Rattle.std.specs.Prelude.{◌≡◌, true, false, MatchOption};
ghost use Rattle.fibre.specs.Good.{bad, reset_of};

use crate::{End, LARGEST};

// An end that answer 1 does not meet.
#[derive(Clone, Copy)]
pub struct Good {
    pub end: End,
    ghost good: { bad end ≡ false },
}

impl End {
    // The end after reset: all is 0.
    pub fn reset() -> End
        ensures { result ≡ reset_of }
    {
        End::default()
    }

    // The end, where answer 1 does not meet it.
    pub(crate) fn good(self) -> Option<Good>
        ensures { MatchOption result (bad self ≡ true) (λ good. good.end ≡ self) }
    {
        if bad(self) {
            None
        } else {
            Some(Good { end: self })
        }
    }
}

// Answer 1: a control above 4,095, in the transmit words, in the block being sent or in the receive words.
pub fn bad(end: End) -> bool
    ensures { result ≡ bad end }
{
    (end.transmit.control > LARGEST)
        | (end.sent.control > LARGEST)
        | (end.receive.control > LARGEST)
}
