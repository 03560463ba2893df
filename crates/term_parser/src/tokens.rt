// Reading tokens and writing rows.
ghost use Rattle.std.specs.Prelude.{◌≡◌, ◌+◌, ◌≤◌, ◌<◌, min, length, drop, set};
ghost use Rattle.source_text.specs.Numerals.{numeral_of};
ghost use Rattle.source_text.specs.Parts.{part_of};
ghost use Rattle.term_parser.specs.Parsing.{token_of, line_of, last_line, sign_of};
ghost use Rattle.term_parser.specs.Grammar.{value, held_of};
ghost use Rattle.term_parser.specs.Steps.{step, rejection_at};
ghost use Rattle.term_parser.specs.Promises.{NameRead, Signed};

use super::{Input, Position, Read, Token};
use refusals::{Refusal, Rejection};
use words::NAME;

// The token at a place; past the end all its numbers are 0. No other function reads the list.
// Stays: no kind is 0, so that past the end no reader finds the one that it looks for; of an `Option` ten readers would ask `is_some_and(..)`.
// Stays: tokens and place go apart, here and below: as methods of `Input` these would be called `input.peek(at)`, and no clause of a contract would go.
pub fn peek(tokens: &[[u32; 4]], at: usize) -> Token
    ensures { result ≡ token_of (drop at tokens.now) }
{
    Token::from(tokens.get(at).copied().unwrap_or([0; 4]))
}

// The line of the token at a place, or that of the last one.
// Stays: line 0 means no line, as in every `Rejection`.
pub fn line(tokens: &[[u32; 4]], at: usize) -> u32
    ensures { result ≡ line_of (last_line tokens.now) (drop at tokens.now) }
{
    let last = tokens.len().saturating_sub(1);
    peek(tokens, at.min(last)).line
}

// The value of the numeral at a place of the text, 2^32 - 1 for a larger one; none where no numeral of 64 bits stands there.
pub fn held(text: &[u8], start: u32, length: u32) -> Option<u32>
    ensures { result ≡ held_of (numeral_of (part_of text.now start length)) }
{
    let value = words::numeral(text, start as usize, length as usize)?;
    Some(u32::try_from(value).unwrap_or(u32::MAX))
}

// The same, 2^32 - 1 also where no numeral of 64 bits stands there.
pub fn saturated(text: &[u8], start: u32, length: u32) -> u32
    ensures { result ≡ min (value (numeral_of (part_of text.now start length))) 4294967295 }
{
    held(text, start, length).unwrap_or(u32::MAX)
}

// The refusal of the token at a place.
pub fn rejection(refusal: Refusal, tokens: &[[u32; 4]], at: usize) -> Rejection
    ensures { result ≡ rejection_at refusal tokens.now at }
{
    Rejection {
        refusal,
        line: line(tokens, at),
    }
}

// The token at a place, which must be a name.
pub fn name_token(tokens: &[[u32; 4]], at: usize) -> Result<Token, Rejection>
    ensures { NameRead tokens.now at result }
{
    let token = peek(tokens, at);
    if token.kind != NAME {
        return Err(rejection(Refusal::NameExpected, tokens, at));
    }
    Ok(token)
}

// Writes a row for the token at a place, and takes it.
pub fn push(out: &mut [[u32; 4]], from: Position, row: [u32; 4]) -> Read
    requires { (from.used < length out.old) × (from.used < 65536) × (from.at < 65536) }
    ensures { (result ≡ record { position = record { at = from.at + 1; used = from.used + 1 }; count = 1 }) × (out.new ≡ set out.old from.used row) }
{
    out[from.used] = row;
    Read {
        position: from.past_row(),
        count: 1,
    }
}

// A sign that must be there.
pub fn sign(input: Input, kind: u32, from: Position) -> Result<Read, Rejection>
    requires fact_1 { length input.tokens.now ≤ 65536 }
    requires fact_2 { 0 < kind }
    ensures { Signed (sign_of (last_line input.entry.tokens.now) kind (drop from.at input.entry.tokens.now))
        input.entry.tokens.now from.at from.used (step result) }
{
    if peek(input.tokens, from.at).kind == kind {
        return Ok(Read {
            position: from.past_token(),
            count: 1,
        });
    }
    Err(rejection(Refusal::SignExpected, input.tokens, from.at))
}
