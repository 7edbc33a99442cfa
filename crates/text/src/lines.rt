// Lines of a text that comes piece by piece. What is held of it stands in a buffer that the caller lends, and the state
// is a struct by value beside it: a line is read out of the buffer while the state goes on. A line ends with a newline;
// one that the buffer can't hold is passed over.
ghost use Rattle.std.specs.Prelude.{◌≡◌, ◌≤◌, ◌+◌, length, ltb, take, drop};
ghost use Rattle.text.specs.Bytes.{index_of};
ghost use Rattle.text.specs.Lines.{found_of, line_of, stop_of, Holds, Within};

use crate::words;

// A line too long to be held is being passed over, and quietly where it is a comment.
#[derive(Clone, Copy, Debug, PartialEq, Eq)]
pub enum Passing {
    Told,
    Quiet,
}

// The text is held up to `filled`. The open line begins at `start`, and no newline stands from there up to `looked`.
#[derive(Clone, Copy)]
pub struct Held {
    pub filled: usize,
    pub start: usize,
    pub looked: usize,
    pub passing: Option<Passing>,
}

// What stands next: a whole line from `start` up to `stop`, the end of one that was too long, or a line that is still
// open.
#[derive(Clone, Copy, Debug, PartialEq, Eq)]
pub enum Found {
    Whole { start: usize, stop: usize },
    TooLong,
    Open,
}

// The next line, and what is held after it.
#[derive(Clone, Copy)]
pub struct Line {
    pub found: Found,
    pub held: Held,
}

// The next line, without its newline and one carriage return. A comment that was too long counts as an empty line.
pub fn next(text: &[u8], held: Held) -> Line
    requires { Holds held (length text.now) }
    ensures holds { Holds result.held (length text.now) }
    ensures within { Within result.found (length text.now) }
    ensures value { result ≡ line_of text.now held }
{
    let left = &text[held.looked..held.filled];
    let passed = to_newline(left);
    if passed == left.len() {
        return Line {
            found: Found::Open,
            held: Held {
                looked: held.filled,
                ..held
            },
        };
    }
    let end = held.looked + passed;
    Line {
        found: found_at(text, held, end),
        held: Held {
            filled: held.filled,
            start: end + 1,
            looked: end + 1,
            passing: None,
        },
    }
}

// The first place of a newline; the length where there is none. Sixteen bytes without one are passed together: a compiler
// can compare them at once, so that the search costs about the same however it lays out a program.
fn to_newline(text: &[u8]) -> usize
    ensures in_bounds { result ≤ length text.now }
    ensures value { result ≡ index_of 10 text.now }
{
    let mut at = 0;
    while text.len() - at >= 16 && !has_newline(&text[at..at + 16]) {
        at += 16;
    }
    while at < text.len() && text[at] != b'\n' {
        at += 1;
    }
    at
}

// Whether one of the bytes is a newline. It goes over all of them and does not stop early, so that a compiler can compare
// them at once.
fn has_newline(bytes: &[u8]) -> bool
    ensures { result ≡ ltb (index_of 10 bytes.now) (length bytes.now) }
{
    let mut found = false;
    for byte in bytes {
        found |= *byte == b'\n';
    }
    found
}

// What the newline at `end` ends.
fn found_at(text: &[u8], held: Held, end: usize) -> Found
    requires holds { Holds held (length text.now) }
    requires end_in_bounds { (held.start ≤ end) × (end ≤ length text.now) }
    ensures within { Within result (length text.now) }
    ensures value { result ≡ found_of held.passing text.now held.start end }
{
    match held.passing {
        Some(Passing::Told) => Found::TooLong,
        Some(Passing::Quiet) => Found::Whole { start: 0, stop: 0 },
        None => Found::Whole {
            start: held.start,
            stop: without_return(text, held.start, end),
        },
    }
}

// The line's end without one carriage return.
fn without_return(text: &[u8], start: usize, end: usize) -> usize
    requires { (start ≤ end) × (end ≤ length text.now) }
    ensures lower_bound { (start ≤ result) × (result ≤ end) }
    ensures value { result ≡ stop_of text.now start end }
{
    if start < end && text[end - 1] == b'\r' {
        return end - 1;
    }
    end
}

impl Held {
    // An open line from the front up to a place, without a newline.
    pub fn open_to(filled: usize) -> Held
        ensures { (result.start ≡ 0) × (result.looked ≡ filled) × (result.filled ≡ filled) }
    {
        Held {
            filled,
            start: 0,
            looked: filled,
            passing: None,
        }
    }

    fn passed_over(passing: Passing) -> Held
        ensures { (result.start ≡ 0) × (result.looked ≡ 0) × (result.filled ≡ 0) }
    {
        Held {
            filled: 0,
            start: 0,
            looked: 0,
            passing: Some(passing),
        }
    }

    // Makes room for a read, which goes to `filled`: the open line goes to the front. Where it fills the text it is
    // passed over: spaces before a first word count for nothing, and a comment is passed over quietly.
    pub fn to_front(self, text: &mut [u8]) -> Held
        requires { Holds self (length text.old) }
        ensures holds { Holds result (length text.new) }
        ensures text_after { take result.filled text.new ≡ take result.filled (drop self.start text.old) }
    {
        if let Some(passing) = self.passing {
            return Held::passed_over(passing);
        }
        // Where it is at the front already, a copy would go over all that is held at each read.
        if self.start > 0 {
            text.copy_within(self.start..self.filled, 0);
        }
        let count = self.filled - self.start;
        if count < text.len() {
            return Held::open_to(count);
        }
        match text.get(words::past_spaces(text)) {
            None => Held::open_to(0),
            Some(b'#') => Held::passed_over(Passing::Quiet),
            Some(_) => Held::passed_over(Passing::Told),
        }
    }

    // So many bytes were read behind what is held.
    pub fn with_more(self, text: &[u8], count: usize) -> Held
        requires holds { Holds self (length text.now) }
        requires count_in_bounds { self.filled + count ≤ length text.now }
        ensures { Holds result (length text.now) }
    {
        Held {
            filled: self.filled + count,
            ..self
        }
    }

    // A newline ends the last line.
    pub fn with_newline(self, text: &mut [u8]) -> Held
        requires { Holds self (length text.old) }
        ensures { Holds result (length text.old) }
    {
        if self.filled >= text.len() {
            return self;
        }
        text[self.filled] = b'\n';
        Held {
            filled: self.filled + 1,
            ..self
        }
    }
}
