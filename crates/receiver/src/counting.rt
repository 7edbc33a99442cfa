// Request #106: counting how collections end.
ghost use Rattle.std.specs.Prelude.{◌≡◌};
ghost use Rattle.receiver.specs.Counting.{more, tallied};

use crate::Counts;
use frame::reason::Reason;

// The counts after a symbol of which this reason was given.
pub fn tally(reason: Reason, counts: Counts) -> Counts
    ensures { result ≡ tallied reason counts }
{
    match reason {
        Reason::Nothing => counts,
        Reason::Accepted => Counts {
            accepted: more(counts.accepted),
            ..counts
        },
        Reason::Crc => Counts {
            crc: more(counts.crc),
            ..counts
        },
        Reason::Marked(_) => Counts {
            marked: more(counts.marked),
            ..counts
        },
        Reason::Parity(_) => Counts {
            early: more(counts.early),
            ..counts
        },
    }
}

// One more. A count stops at 65,535: it then stands for that many or more.
fn more(count: u16) -> u16
    ensures { result ≡ more count }
{
    count.saturating_add(1)
}
