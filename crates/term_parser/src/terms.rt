// Terms: the cycle of calls.
ghost use Rattle.std.specs.Prelude.{◌≡◌, [], ◌<◌, length, get_or};
ghost use Rattle.term_parser.specs.Grammar.{atom_of, app_of, term_of, parenthesis};
ghost use Rattle.term_parser.specs.Rows.{application_kind, rows_of};
ghost use Rattle.term_parser.specs.Steps.{step, maybe_step};
ghost use Rattle.term_parser.specs.Promises.{Room, Reads, Applying, Equating, kind_at};

use super::tokens::{peek, push, rejection, saturated, sign};
use super::{APPLICATION, Input, Position, Read};
use refusals::{Refusal, Rejection};
use words::{CLOSE, EQUALS, METAVARIABLE, NAME, NUMERAL, OPEN};

// The term whose rows start at `root`, applied to the terms behind it, of which there are `more`, up to the place `from`.
pub fn apply(
    input: Input,
    from: Position,
    out: &mut [[u32; 4]],
    root: usize,
    more: u32,
) -> Result<Read, Rejection>
    requires { root < length out.old }
    ensures { Applying input.entry.tokens.now from.at out.old root from.used more (step result) out.new }
{
    let read = Read {
        position: from,
        count: 1,
    };
    if more == 0 {
        return Ok(read);
    }
    let row = out[root];
    // Stays: a kind is a number in these rows, which C lends; an enum would be made by the same `match`, only to be matched again.
    match row {
        [NAME, start, length, _] => {
            out[root] = [APPLICATION, start, length, more];
            Ok(read)
        }
        _ => Err(rejection(Refusal::OnlyNames, input.tokens, from.at)),
    }
}

// The term whose rows start at `root`, with the term behind it, up to the place `from`, as its last argument.
// Stays: with `apply` it shares the arm of a name alone; one function of both would get the number and the refusal, and a flag for the second arm.
pub fn equate(
    input: Input,
    from: Position,
    out: &mut [[u32; 4]],
    root: usize,
) -> Result<Read, Rejection>
    requires fact_1 { root < length out.old }
    requires fact_2 { (kind_at out.old root ≡ application_kind → get_or (get_or out.old root []) 3 0 < 65536) }
    ensures { Equating input.entry.tokens.now from.at out.old root from.used (step result) out.new }
{
    let read = Read {
        position: from,
        count: 1,
    };
    let row = out[root];
    // Stays: a kind is a number in these rows, which C lends; an enum would be made by the same `match`, only to be matched again.
    match row {
        [NAME, start, length, _] => {
            out[root] = [APPLICATION, start, length, 1];
            Ok(read)
        }
        [APPLICATION, start, length, more] => {
            out[root] = [APPLICATION, start, length, more + 1];
            Ok(read)
        }
        _ => Err(rejection(Refusal::LeftOfEquals, input.tokens, from.at)),
    }
}

// A name, a metavariable, a numeral, or a term in parentheses, of which `left` more may be open.
#[cycle(app_atom_term)]
pub fn atom(
    input: Input,
    from: Position,
    left: u32,
    out: &mut [[u32; 4]],
) -> Result<Option<Read>, Rejection>
    requires { Room input.tokens.now from.at from.used out.old }
    ensures { Reads 1 rows_of (λ text last. atom_of text last (parenthesis text last left)) input.entry from out.old (maybe_step result) out.new }
{
    let t = peek(input.tokens, from.at);
    // Stays: the kind is a number in a token's row, which C callers lend; an enum would be made by the same `match`, only to be matched again.
    match t.kind {
        NAME | METAVARIABLE => Ok(Some(push(out, from, [t.kind, t.start, t.length, 0]))),
        NUMERAL => {
            let value = saturated(input.text, t.start, t.length);
            Ok(Some(push(out, from, [NUMERAL, t.start, t.length, value])))
        }
        OPEN => {
            let inside = from.past_token();
            let Some(rest) = left.checked_sub(1) else {
                return Err(rejection(Refusal::ParenthesisLimit, input.tokens, from.at));
            };
            let inner = term(input, inside, rest, out)?;
            Ok(Some(sign(input, CLOSE, inner.position)?))
        }
        _ => Ok(None),
    }
}

// A term applied to terms by juxtaposition: the first atom takes those behind it.
// Stays: `items::all` has no `left`: its items would become values, of which only atoms hold a number, and its loop would be in the cycle of calls.
#[cycle(app_atom_term)]
pub fn app(input: Input, from: Position, left: u32, out: &mut [[u32; 4]]) -> Result<Read, Rejection>
    requires { Room input.tokens.now from.at from.used out.old }
    ensures { Reads 1 rows_of (λ text last. app_of text last (parenthesis text last left)) input.entry from out.old (step result) out.new }
{
    let mut next = from;
    let mut n: u32 = 0;
    while let Some(more) = atom(input, next, left, out)? {
        next = more.position;
        n += 1;
    }
    let Some(more) = n.checked_sub(1) else {
        return Err(rejection(Refusal::TermExpected, input.tokens, next.at));
    };
    apply(input, next, out, from.used, more)
}

// A judgment: `f args`, or `f args = result`.
// It is inlined into `atom` and `Judgment::read`: called, it would read by 16 bytes an `Input` that is written by 8, and wait for both writes.
#[cycle(app_atom_term)]
#[inline(always)]
pub fn term(
    input: Input,
    from: Position,
    left: u32,
    out: &mut [[u32; 4]],
) -> Result<Read, Rejection>
    requires { Room input.tokens.now from.at from.used out.old }
    ensures { Reads 1 rows_of (λ text last. term_of text last (parenthesis text last left)) input.entry from out.old (step result) out.new }
{
    let read = app(input, from, left, out);
    let Ok(first) = read else {
        return read;
    };
    let next = first.position;
    if peek(input.tokens, next.at).kind != EQUALS {
        return read;
    }
    let behind = next.past_token();
    let second = app(input, behind, left, out)?;
    equate(input, second.position, out, from.used)
}
