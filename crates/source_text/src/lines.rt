// Line ends and comments.
ghost use Rattle.std.specs.Prelude.{◌≡◌, ◌+◌, ◌≤◌, ◌<◌, length, drop};
ghost use Rattle.source_text.specs.Lines.{line_of, code_of, ends_code};

use super::bytes::starts_with;

// The end of the line that a place is in: the next line feed, or the text's end.
// Stays: `Lines::next`, which calls it, keeps places of the text; of a rest alone it would add the place that it has cut at.
pub fn line_end(text: &[u8], at: usize) -> usize
    requires { at ≤ length text.now }
    ensures { result ≡ at + length (line_of (drop at text.now)) }
{
    let rest = &text[at..];
    at + rest.iter().position(|c| *c == b'\n').unwrap_or(rest.len())
}

// Does the code of a line end where a rest of the text starts, at a line feed or at `--`?
// By its first byte; by slice patterns, lexing 65,536 bytes of declarations takes 515 us in place of 473, and 566 by two calls of `starts_with`.
#[tactic(auto, unfolding(crate::specs::Bytes::starts_with))]
fn ends_code(rest: &[u8]) -> bool
    requires { 0 < length rest.now }
    ensures { result ≡ ends_code rest.now }
{
    match rest[0] {
        b'\n' => true,
        b'-' => starts_with(rest, b"--"),
        _ => false,
    }
}

// The end of the code of the line that starts at a place: its first `--`, or its end.
// Stays: as at `line_end`: `Lines::next` keeps places of the text; of a rest alone it would add the place that it has cut at.
pub fn code_end(text: &[u8], at: usize) -> usize
    requires { at ≤ length text.now }
    ensures { result ≡ at + length (code_of (line_of (drop at text.now))) }
{
    (at..text.len())
        .find(|i| ends_code(&text[*i..]))
        .unwrap_or(text.len())
}

// The code of a line: its bytes without the comment, the place of the text where they start, and the line's number.
#[derive(Clone, Copy)]
pub struct Code<'a> {
    pub bytes: &'a [u8],
    pub start: usize,
    pub line: u32,
}

// The lines of a text from a place on, where the line with this number starts.
#[derive(Drop)]
pub struct Lines<'a> {
    pub text: &'a [u8],
    pub at: usize,
    pub line: u32,
    pub ghost short: { length text.now ≤ 65536 },
    pub ghost counted: { line ≤ at + 1 },
}

impl<'a> Lines<'a> {
    // All lines of a text.
    pub fn new(text: &'a [u8]) -> Self
        requires { length text.now ≤ 65536 }
        ensures { (result.text.now ≡ text.now) × (result.at ≡ 0) × (result.line ≡ 1) }
    {
        Lines {
            text,
            at: 0,
            line: 1,
        }
    }
}

impl<'a> Iterator for Lines<'a> {
    ghost use Rattle.std.specs.Prelude.{◌+◌, ◌-◌, length};
    ghost use Rattle.std.specs.Iterator.{at_most};
    ghost use Rattle.source_text.specs.TakenLines.{GivesLine};

    type Item = Code<'a>;

    ghost next_gives = { GivesLine };

    ghost remaining = { λ s. at_most (length s.text.now + 1 - s.at) };

    // The code of the next line, if there is one.
    fn next(&mut self) -> Option<Code<'a>> {
        if self.text.len() <= self.at {
            return None;
        }
        let end = code_end(self.text, self.at);
        let code = Code {
            bytes: &self.text[self.at..end],
            start: self.at,
            line: self.line,
        };
        self.at = line_end(self.text, end) + 1;
        self.line += 1;
        Some(code)
    }
}
