// Two ends of 1000BASE-T1, as a link joins them.
#![tactic(auto)]

ghost use Rattle.std.specs.Prelude.{◌≡◌, ◌+◌, ◌%◌};
ghost use Rattle.end.specs.Good.{reset_of};
ghost use Rattle.end.specs.Sending.{send_of};
ghost use Rattle.end.specs.Taking.{take_of};

use consolecommands::link::Channel;
use end::End;

// What a mark adds to a symbol of nine bits.
const MARK: u16 = 512;

// The copper between two ends: in a slot each sends a symbol.
#[derive(Clone, Copy)]
pub struct Copper;

impl Channel for Copper {
    type End = End;

    type Signal = u16;

    ghost begins = { λ end. end ≡ reset_of };

    ghost sends = { λ end symbol after. (symbol ≡ (send_of end).symbol) × (after ≡ (send_of end).end) };

    ghost takes = { λ end symbol after. after ≡ (take_of end symbol).end };

    ghost marks = { λ symbol marked. marked ≡ symbol % 512 + 512 };

    fn reset() -> End {
        End::reset()
    }

    fn send(end: End) -> (u16, End) {
        let sent = end.send();
        (sent.symbol, sent.end)
    }

    fn take(end: End, symbol: u16) -> End {
        end.take(symbol).end
    }

    // A mark keeps the symbol's nine bits.
    fn marked(symbol: u16) -> u16 {
        symbol % MARK + MARK
    }
}
