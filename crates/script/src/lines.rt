ghost use Rattle.std.specs.Prelude.{◌≡◌, ◌≤◌, [], length, MatchOption};
ghost use Rattle.std.specs.Iterator.{YieldsFirstRef, item_count};
ghost use Rattle.script.specs.Texts.{lines, lines_left, StartsWith};

/// The first line of a text, with its end byte if it has one, and what follows it.
/// Only an empty text has no line.
pub fn first_line(text: &[u8]) -> Option<(&[u8], &[u8])>
    ensures { MatchOption result (text.now ≡ []) (λ x. StartsWith text.now x.0.now x.1.now) }
{
    let line = text.split_inclusive(|b| *b == b'\n').next()?;
    Some(text.split_at(line.len()))
}

/// Goes through the lines of a text in order, each with its end byte if it has one.
#[derive(Drop)]
pub struct Lines<'a> {
    rest: &'a [u8],
}

impl<'a> Lines<'a> {
    /// The lines of a text. There are no more of them than bytes, so they can be counted.
    pub fn new(text: &'a [u8]) -> Lines<'a>
        ensures all { lines_left result ≡ lines text.now }
        ensures few { length (lines_left result) ≤ length text.now }
    {
        Lines { rest: text }
    }
}

impl<'a> Iterator for Lines<'a> {
    type Item = &'a [u8];

    ghost next_gives = { YieldsFirstRef lines_left };

    ghost remaining = { item_count lines_left };

    fn next(&mut self) -> Option<&'a [u8]> {
        let (line, rest) = first_line(self.rest)?;
        self.rest = rest;
        Some(line)
    }
}
