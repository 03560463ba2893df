// Words: from a text to its tokens. The Rust's `lex`, with the refusals 1 to 6.
//
// The entry points are `lex`, `word`, `numeral` and `Limits::capped`. They ask nothing
// of their caller, and each contract fixes the answer and every byte of the lent rows on all inputs.
// `same` serves the crates above. What stands below tokens is in `source_text`.
#![tactic(auto)]

pub use names::{
    AUTO, BY, CHECK, CTOR, DEF, EVAL, INDUCTION, LONGEST, METAVARIABLE, NAME, NUMERAL, PRED, RULE,
    SORT, THEOREM,
};
pub use signs::{ARROW, BAR, CLOSE, COLON, COMMA, DEFINES, DOUBLE_ARROW, EQUALS, OPEN};
pub use source_text::bytes::same;
pub use source_text::{numeral, word};
pub use tokens::Row;

mod names; // keywords and kinds of words
mod signs; // the signs
mod tokens; // one token, one line, all lines

ghost use Rattle.std.specs.Prelude.{◌≡◌, ◌≤◌, length};
ghost use Rattle.words.specs.Rows.{Read};
ghost use Rattle.words.specs.Lexer.{capped_of, lex_of, Lexing};

use refusals::{Refusal, Rejection};
use slices::clear_from;
use source_text::lines::Lines;
use source_text::utf8::is_utf8;
use tokens::{outside_line, read_lines};

// The limits that a caller may set. A limit over the one of document 01 counts as that one.
#[derive(Clone, Copy, Default)]
pub struct Limits {
    pub text: u32,
    pub nodes: u32,
    pub steps: u32,
    pub variables: u32,
    pub words: u32,
}

// Document 01's limits: 65,536 bytes of text, 32,768 nodes in all, 65,535 steps, 65,536 variables, 262,144 words.
pub const TEXT: u32 = 65536;

pub const NODES: u32 = 32768;

const STEPS: u32 = 65535;

const VARIABLES: u32 = 65536;

pub const WORDS: u32 = 262144;

impl Limits {
    // The limits that count.
    pub fn capped(self) -> Limits
        ensures { result ≡ capped_of self }
    {
        Limits {
            text: self.text.min(TEXT),
            nodes: self.nodes.min(NODES),
            steps: self.steps.min(STEPS),
            variables: self.variables.min(VARIABLES),
            words: self.words.min(WORDS),
        }
    }
}

// The reading of a text of any bytes, in the order of the table; its tokens go to the rows from 0 on.
// Stays: the limit is no length of a part of the text that is used; all of the text is read, and a text that is longer than the limit is refused.
fn read(text: &[u8], limit: usize, rows: &mut [Row]) -> Result<usize, Rejection>
    requires { (limit ≤ 65536) × (limit ≤ length rows.old) }
    ensures { Read (lex_of limit text.now) limit 0 rows.old result rows.new }
{
    if limit < text.len() {
        return Err(Rejection::from(Refusal::TextLength));
    }
    if !is_utf8(text) {
        return Err(Rejection::from(Refusal::NotUtf8));
    }
    match read_lines(Lines::new(text), rows) {
        Ok(count) => Ok(count),
        // A text that is read to its end has no character outside the domain, so only a refused one is searched for it.
        Err(rejection) => Err(outside_line(Lines::new(text)).map_or(
            rejection,
            |line| Rejection {
                refusal: Refusal::OutsideDomain,
                line,
            },
        )),
    }
}

// Reads a text into token rows (kind, start, length, line), of which there are as many as the limit on the text's bytes; answers the number of tokens.
pub fn lex(text: &[u8], limits: Limits, tokens: &mut [Row]) -> Result<usize, Rejection>
    ensures { Lexing text.now limits tokens.old result tokens.new }
{
    let limit = limits.capped().text as usize;
    if tokens.len() < limit {
        return Err(Rejection::from(Refusal::Storage));
    }
    let read = read(text, limit, tokens);
    clear_from(tokens, read.unwrap_or(0), [0; 4]);
    read
}
