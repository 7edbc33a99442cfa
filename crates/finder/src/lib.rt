// The finder of document 01, "The finder": the first acceptable frame of a capture, as a part of the caller's own list.
#![tactic(auto)]

ghost use Rattle.std.specs.Prelude.{◌≡◌, ◌+◌, ◌*◌};
ghost use Rattle.frame.specs.Check.{right_at};
ghost use Rattle.finder.specs.Finder.{find_of, stretch_of};
ghost use Rattle.finder.specs.Search.{ruled_out};

use answer::Answer;

// The longest list that is searched, as request #102 has it.
const LIMIT: usize = 32768;

// The answer to a search, one of the table's, and the place of what was found: 0 on refusal, as `find_of` says. So it
// is no Result.
#[derive(Clone, Copy)]
pub struct Found {
    pub answer: Answer,
    pub place: usize,
}

// Whether a symbol may stand at place k of a frame: what frame::right_at says, without a branch on the place. In the
// frame check a compiler decides that branch beforehand. Here it can't, and would count the symbol's ones because of it
// instead of testing the processor's parity flag.
fn stands(symbol: u16, k: usize) -> bool
    ensures { result ≡ right_at k symbol }
{
    symbol < frame::MARKED && frame::parity(symbol) != (k == 0)
}

// How many places a fault rules out. Of twelve symbols this one, at place k, may not stand there, and those behind it
// may: they are odd, and none of them starts a frame. No frame starts before it either: there too it would stand behind
// the first. So all twelve places fall; but unmarked and behind the first it is even, and may start a frame itself.
fn ruled_out(symbol: u16, k: usize) -> usize
    ensures { result ≡ ruled_out symbol k }
{
    if symbol < frame::MARKED && k > 0 {
        k
    } else {
        frame::SYMBOLS
    }
}

// The answer, and the smallest place where twelve symbols pass.
pub fn place(list: &[u16]) -> Found
    ensures { result ≡ find_of list.now }
{
    if LIMIT < list.len() {
        return Found {
            answer: Answer::BadLength,
            place: 0,
        };
    }
    if frame::above(frame::LARGEST, list) {
        return Found {
            answer: Answer::BadSymbol,
            place: 0,
        };
    }
    let mut symbols = [0u16; 12];
    let mut at = 0;
    let mut found = false;
    // No `for`, as it goes on by one to twelve places; over `first_chunk` the place would be carried by hand as well.
    'places: while at + frame::SYMBOLS <= list.len() {
        // From the last of the twelve to the first: those behind a fault are then known to start no frame. Each is
        // stored once it may stand where it does: an array of the twelve made beforehand would cost the search a fifth.
        for k in (0..frame::SYMBOLS).rev() {
            let symbol = list[at + k];
            if !stands(symbol, k) {
                at += ruled_out(symbol, k);
                continue 'places;
            }
            symbols[k] = symbol;
        }
        if frame::crc_right(symbols) {
            found = true;
            break 'places;
        }
        at += frame::SYMBOLS;
    }
    if found {
        Found {
            answer: Answer::Done,
            place: at,
        }
    } else {
        Found {
            answer: Answer::NothingFound,
            place: 0,
        }
    }
}

// The twelve symbols that were found, as a part of the caller's own list; an empty part of it on refusal.
pub fn find(list: &[u16]) -> &[u16]
    ensures contents { result.now ≡ stretch_of list.now }
    ensures block { result.ref_ptr.0 ≡ list.entry.ref_ptr.0 }
    ensures offset { result.ref_ptr.1 ≡ (find_of list.now).place * 2 + list.entry.ref_ptr.1 }
{
    let found = place(list);
    if found.answer == Answer::Done {
        &list[found.place..found.place + frame::SYMBOLS]
    } else {
        &list[0..0]
    }
}
