// Words of a line. One or more spaces separate them.
ghost use Rattle.std.specs.Prelude.{[], ◌≡◌, ◌≤◌, ◌-◌, true, false, length, drop, IfSome, MatchOption};
ghost use Rattle.text.specs.Words.{asks_of, none_of, rest_of, spaces_of, words_of, Stands};

// The next word, and what stands behind it.
pub fn next(line: &[u8]) -> Option<(&[u8], &[u8])>
    ensures { MatchOption result (words_of line.now ≡ []) (λ w. Stands line.now w.0.now w.1.now) }
{
    let start = line.iter().position(|byte| *byte != b' ')?;
    let line = &line[start..];
    let end = line
        .iter()
        .position(|byte| *byte == b' ')
        .unwrap_or(line.len());
    Some(line.split_at(end))
}

// The first place that has no space. It goes by places, which a compiler can take many of at a time, and no iterator:
// a line too long to be held may be all spaces.
pub(crate) fn past_spaces(line: &[u8]) -> usize
    ensures in_bounds { result ≤ length line.now }
    ensures value { result ≡ spaces_of line.now }
{
    let mut at = 0;
    while at < line.len() {
        if line[at] != b' ' {
            return at;
        }
        at += 1;
    }
    at
}

// What stands behind the next word; nothing where there is none.
pub fn past_word(line: &[u8]) -> &[u8]
    ensures place { result.now ≡ drop (length line.now - length result.now) line.now }
    ensures words { words_of result.now ≡ rest_of (words_of line.now) }
{
    match next(line) {
        Some((_, rest)) => rest,
        None => &[],
    }
}

// Whether no word stands there.
pub fn is_last(line: &[u8]) -> bool
    ensures { result ≡ none_of (words_of line.now) }
{
    next(line).is_none()
}

// The first word of a line that asks for something, and what stands behind it. A line without a word asks for nothing,
// and so does one whose first word begins with #.
pub fn first_word(line: &[u8]) -> Option<(&[u8], &[u8])>
    ensures asks { MatchOption result (asks_of (words_of line.now) ≡ false) (λ w. asks_of (words_of line.now) ≡ true) }
    ensures stands { IfSome result (λ w. Stands line.now w.0.now w.1.now) }
{
    let (word, rest) = next(line)?;
    if word[0] == b'#' {
        return None;
    }
    Some((word, rest))
}
