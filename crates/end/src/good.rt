// Answer 1, the end after reset, and presence.
ghost use Rattle.std.specs.Prelude.{◌≡◌, true, false, MatchOption};
ghost use Rattle.end.specs.Good.{bad, reset_of, present_of};

use crate::End;
use receiver::LASTING;

// An end that answer 1 does not meet.
#[derive(Clone, Copy)]
pub struct Good {
    pub end: End,
    ghost good: { bad end ≡ false },
}

impl End {
    // The end after reset: everything 0, the sender ready, the position 0.
    pub fn reset() -> End
        ensures { result ≡ reset_of }
    {
        let mut end = End::default();
        end.sender.ready = true;
        end
    }

    // The end, where answer 1 does not meet it.
    pub(crate) fn good(self) -> Option<Good>
        ensures { MatchOption result (bad self ≡ true) (λ good. good.end ≡ self) }
    {
        if bad(self) {
            None
        } else {
            Some(Good { end: self })
        }
    }

    // Partner present: a frame was accepted within the last 768 symbols taken. An end that answer 1 would meet says no.
    pub fn present(self) -> bool
        ensures { result ≡ present_of self }
    {
        !bad(self) & (self.presence > 0)
    }
}

// Answer 1: a position or count above 11, a stored symbol above 511, a health above 3, a number above 15 or a presence
// above 768.
pub fn bad(end: End) -> bool
    ensures { result ≡ bad end }
{
    (end.sender.position > 11)
        | (end.collector.count > 11)
        | frame::above(511, &end.sender.symbols)
        | frame::above(511, &end.collector.symbols)
        | (end.sender.health > 3)
        | (end.sender.loaded > 3)
        | (end.heard.health > 3)
        | (end.outbox.number > 15)
        | (end.inbox.number > 15)
        | (end.presence > LASTING)
}
