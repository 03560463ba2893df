// Parser: from tokens to declarations. The Rust's `parse`, and the declarations of its `Parser`, with the refusals 7 to 16. Terms are read by `term_parser`.
//
// The entry point is `parse_text`. It asks nothing of its caller, and its contract fixes the answer and every byte of the lent rows on
// all inputs. `parse` serves `parse_text`: its refusal 1 goes by the number of tokens, not by the limits alone.
#![tactic(auto)]

mod declarations; // declarations

ghost use Rattle.parser.specs.Parser.{Parsing, ParsingText};

use declarations::declarations;
use refusals::{Refusal, Rejection};
use slices::clear_from;
use term_parser::Input;

// The kinds of rows beside those of tokens and terms.
// Stays: C callers lend the rows, so a kind is a number there, and may be none of these; a type of kinds would be converted at each read and write.
pub const CLAUSE: u32 = 25;

pub const BINDERS: u32 = 26;

// What is parsed: how many declarations there are, and how many rows they take.
#[derive(Clone, Copy)]
pub struct Parsed {
    pub declarations: u32,
    pub rows: usize,
}

// Parses the tokens of a text into rows, of which there are at least as many as tokens. Any list of token rows will do. It is no entry point, since how many
// rows it asks for follows from the tokens: `parse_text` lends it as many as the limit on the text's bytes, so that its refusal 1 is never met there.
pub fn parse(text: &[u8], tokens: &[[u32; 4]], rows: &mut [[u32; 4]]) -> Result<Parsed, Rejection>
    ensures { Parsing text.now tokens.now rows.old result rows.new }
{
    if tokens.len() > words::TEXT as usize {
        return Err(Rejection::from(Refusal::Storage));
    }
    if rows.len() < tokens.len() {
        return Err(Rejection::from(Refusal::Storage));
    }
    let read = declarations(Input { text, tokens }, rows);
    clear_from(rows, read.map_or(0, |read| read.position.used), [0; 4]);
    let read = read?;
    Ok(Parsed {
        declarations: read.count,
        rows: read.position.used,
    })
}

// Reads a text and parses it. There are at least as many token rows, and as many rows, as the limit on the text's bytes.
pub fn parse_text(
    text: &[u8],
    limits: words::Limits,
    tokens: &mut [[u32; 4]],
    rows: &mut [[u32; 4]],
) -> Result<Parsed, Rejection>
    ensures { ParsingText text.now limits tokens.old rows.old result tokens.new rows.new }
{
    let limit = limits.capped().text as usize;
    if tokens.len() < limit {
        return Err(Rejection::from(Refusal::Storage));
    }
    if rows.len() < limit {
        return Err(Rejection::from(Refusal::Storage));
    }
    match words::lex(text, limits, tokens) {
        Ok(count) => {
            let answer = parse(text, &tokens[..count], rows);
            if answer.is_err() {
                clear_from(tokens, 0, [0; 4]);
            }
            answer
        }
        Err(rejection) => {
            clear_from(rows, 0, [0; 4]);
            Err(rejection)
        }
    }
}
