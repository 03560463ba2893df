// Items: what lists are made of, and how a list is read, whatever its items are.
ghost use Rattle.std.specs.Prelude.{◌≡◌, ℕ, List, [], ◌+◌, ◌≤◌, ◌<◌, IfOk};
ghost use Rattle.std.proofs.Common.{rules};
ghost use Rattle.term_parser.specs.Source.{Place, Source, one};
ghost use Rattle.term_parser.specs.Parsing.{Tokens, Parsed, repeat, behind};
ghost use Rattle.term_parser.specs.Grammar.{name_of, parenthesis};
ghost use Rattle.term_parser.specs.Rows.{Rows, rows_of, name_rows};
ghost use Rattle.term_parser.specs.Lists.{separated, unless, name, term, app};
ghost use Rattle.term_parser.specs.Steps.{step, maybe_step};
ghost use Rattle.term_parser.specs.Promises.{Room, Reads, ReadsList};
ghost use Rattle.term_parser.specs.Firmness.{Firm, firm_name, firm_term, firm_app};

use super::lists::name;
use super::terms::{app, term};
use super::tokens::peek;
use super::{Input, PARENTHESES, Position, Read};
use refusals::Rejection;
use words::{ARROW, COLON, COMMA};

// An item that must be there.
pub trait Item {
    // What is read, its rows, and how it is read from the tokens of a text, of which the last one is in a line.
    ghost Of: { Type 0 };

    ghost rows: { Of → Rows };

    ghost grammar: { List ℕ → ℕ → Tokens → Parsed Of };

    // The sign between two of them.
    const SIGN: u32;

    ghost SIGN: { ℕ };

    fn read(input: Input, from: Position, out: &mut [[u32; 4]]) -> Result<Read, Rejection>
        requires { Room input.tokens.now from.at from.used out.old }
        ensures { Reads 1 rows grammar input.entry from out.old (step result) out.new };

    // It is read or refused, and a sign is a token.
    ghost firm: { (text : List ℕ) (last : ℕ) (ts : Tokens) → Firm (grammar text last ts) };

    ghost is_token: { 0 < SIGN };
}

// An item that comes again as long as there is one.
pub trait Repeated {
    ghost Of: { Type 0 };

    ghost rows: { Of → Rows };

    ghost grammar: { List ℕ → ℕ → Tokens → Parsed Of };

    fn read(input: Input, from: Position, out: &mut [[u32; 4]]) -> Result<Option<Read>, Rejection>
        requires { Room input.tokens.now from.at from.used out.old }
        ensures { Reads 1 rows grammar input.entry from out.old (maybe_step result) out.new };
}

// A name, a judgment, and a pattern.
pub struct Name;

impl Item for Name {
    ghost Of = { Place };

    ghost rows = { name_rows };

    ghost grammar = { λ text last. name_of last };

    const SIGN: u32 = ARROW;

    ghost SIGN = { 15 };

    ghost firm = { λ text last. firm_name last };

    ghost is_token = { Prim.search rules };

    fn read(input: Input, from: Position, out: &mut [[u32; 4]]) -> Result<Read, Rejection> {
        name(input, from, out)
    }
}

pub struct Judgment;

impl Item for Judgment {
    ghost Of = { Source one };

    ghost rows = { rows_of };

    ghost grammar = { term };

    const SIGN: u32 = ARROW;

    ghost SIGN = { 15 };

    ghost firm = { λ text last. firm_term text last (parenthesis text last 64) };

    ghost is_token = { Prim.search rules };

    fn read(input: Input, from: Position, out: &mut [[u32; 4]]) -> Result<Read, Rejection> {
        term(input, from, PARENTHESES, out)
    }
}

pub struct Pattern;

impl Item for Pattern {
    ghost Of = { Source one };

    ghost rows = { rows_of };

    ghost grammar = { app };

    const SIGN: u32 = COMMA;

    ghost SIGN = { 21 };

    ghost firm = { λ text last. firm_app text last (parenthesis text last 64) };

    ghost is_token = { Prim.search rules };

    fn read(input: Input, from: Position, out: &mut [[u32; 4]]) -> Result<Read, Rejection> {
        app(input, from, PARENTHESES, out)
    }
}

// An item that is there, where it is not refused.
// Stays: `read.map(Some)` says the same, but parsing short declarations took longer by it, and longer still by `?`, here and in `all`.
pub fn present(read: Result<Read, Rejection>) -> Result<Option<Read>, Rejection>
    ensures { maybe_step result ≡ step read }
{
    match read {
        Ok(read) => Ok(Some(read)),
        Err(rejection) => Err(rejection),
    }
}

// An item behind a sign, as those that follow a first one.
pub struct Next<I>(I);

impl<I: Item> Repeated for Next<I> {
    ghost Of = { I.Of };

    ghost rows = { I.rows };

    ghost grammar = { λ text last. behind I.SIGN (I.grammar text last) };

    fn read(input: Input, from: Position, out: &mut [[u32; 4]]) -> Result<Option<Read>, Rejection> {
        if peek(input.tokens, from.at).kind != I::SIGN {
            return Ok(None);
        }
        let behind = from.past_token();
        present(I::read(input, behind, out))
    }
}

// A name up to a colon, as those that follow a first one.
pub struct Bound;

impl Repeated for Bound {
    ghost Of = { Place };

    ghost rows = { name_rows };

    ghost grammar = { λ text last. unless 20 (name_of last) };

    fn read(input: Input, from: Position, out: &mut [[u32; 4]]) -> Result<Option<Read>, Rejection> {
        if peek(input.tokens, from.at).kind == COLON {
            return Ok(None);
        }
        present(name(input, from, out))
    }
}

// The items from a place on, as long as there is one.
pub fn all<R: Repeated>(
    input: Input,
    from: Position,
    out: &mut [[u32; 4]],
) -> Result<Read, Rejection>
    requires { Room input.tokens.now from.at from.used out.old }
    ensures list { ReadsList 0 R.rows (λ text last ts. repeat (R.grammar text last) ts 0 0 []) input.entry from out.old (step result) out.new }
    ensures few { IfOk result (λ read. read.count + from.at ≤ read.position.at) }
{
    let mut next = from;
    let mut n = 0;
    loop {
        match R::read(input, next, out) {
            Ok(Some(more)) => {
                next = more.position;
                n += 1;
            }
            Ok(None) => break,
            Err(rejection) => return Err(rejection),
        }
    }
    Ok(Read {
        position: next,
        count: n,
    })
}

// A first item, and others behind signs.
pub fn list<I: Item>(input: Input, from: Position, out: &mut [[u32; 4]]) -> Result<Read, Rejection>
    requires { Room input.tokens.now from.at from.used out.old }
    ensures { ReadsList 1 I.rows (λ text last. separated I.SIGN (I.grammar text last)) input.entry from out.old (step result) out.new }
{
    let first = I::read(input, from, out)?;
    let rest = all::<Next<I>>(input, first.position, out)?;
    Ok(Read {
        count: rest.count + 1,
        ..rest
    })
}
