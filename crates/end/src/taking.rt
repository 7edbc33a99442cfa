// Taking, one symbol.
ghost use Rattle.std.specs.Prelude.{◌≡◌};
ghost use Rattle.end.specs.Taking.{took_of, take_of};

use crate::good::Good;
use crate::{End, Taken};
use answer::Answer;
use frame::reason::Reason;
use receiver::counting::tally;
use receiver::presence::left_after;
use receiver::taking::{collect, enter, hear, reason_of, settle};

impl End {
    // Settle, collect and, with the twelfth symbol of a frame whose CRC is right, accept and enter. Says what became of
    // the collection, and counts it. A symbol that is refused does not age presence.
    pub fn take(self, symbol: u16) -> Taken
        ensures { result ≡ take_of self symbol }
    {
        let Some(good) = self.good() else {
            return Taken {
                answer: Answer::BadEnd,
                reason: Reason::Nothing,
                end: self,
            };
        };
        if symbol > frame::LARGEST {
            return Taken {
                answer: Answer::BadSymbol,
                reason: Reason::Nothing,
                end: self,
            };
        }
        good.taken(symbol)
    }
}

impl Good {
    // The three steps, on the parts of the receiving side; what became of the collection is counted, and presence
    // begins anew or is one symbol older.
    fn taken(self, symbol: u16) -> Taken
        ensures { result ≡ took_of symbol self.end }
    {
        let mut end = self.end;
        let settled = settle(end.heard, end.inbox);
        let collector = collect(symbol, end.collector);
        let reason = reason_of(symbol, end.collector, collector.symbols);
        let accepted = reason.is_accepted();
        end.collector = collector;
        end.heard = hear(accepted, collector.symbols, end.heard);
        end.inbox = enter(accepted, collector.symbols, settled);
        end.counts = tally(reason, end.counts);
        end.presence = left_after(accepted, end.presence);
        Taken {
            answer: Answer::Done,
            reason,
            end,
        }
    }
}
