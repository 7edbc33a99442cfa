// Request #107: presence that lapses.
ghost use Rattle.std.specs.Prelude.{◌≡◌};
ghost use Rattle.receiver.specs.Presence.{left_after};

use crate::LASTING;

// What is left of presence after a symbol taken: all of it where a frame was accepted with the symbol, else one less,
// and 0 stays 0.
pub fn left_after(accepted: bool, left: u16) -> u16
    ensures { result ≡ left_after accepted left }
{
    if accepted {
        LASTING
    } else {
        left.saturating_sub(1)
    }
}
