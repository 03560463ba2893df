// Names, and lists of items.
ghost use Rattle.term_parser.specs.Grammar.{name_of};
ghost use Rattle.term_parser.specs.Rows.{rows_of, name_rows};
ghost use Rattle.term_parser.specs.Lists.{arrows_of, names_of, title_of, judgments_of, patterns_of};
ghost use Rattle.term_parser.specs.Steps.{step};
ghost use Rattle.term_parser.specs.Promises.{Room, Reads, ReadsList};

use super::items::{Bound, Judgment, Name, Pattern, all, list};
use super::tokens::{name_token, peek, push, sign};
use super::{Input, Position, Read};
use refusals::Rejection;
use words::{COLON, DOUBLE_ARROW, NAME};

// A name that must be there.
pub fn name(input: Input, from: Position, out: &mut [[u32; 4]]) -> Result<Read, Rejection>
    requires { Room input.tokens.now from.at from.used out.old }
    ensures { Reads 1 name_rows (λ _. name_of) input.entry from out.old (step result) out.new }
{
    let t = name_token(input.tokens, from.at)?;
    Ok(push(out, from, [NAME, t.start, t.length, 0]))
}

// `n :`
pub fn title(input: Input, from: Position, out: &mut [[u32; 4]]) -> Result<Read, Rejection>
    requires { Room input.tokens.now from.at from.used out.old }
    ensures { Reads 2 name_rows (λ _. title_of) input.entry from out.old (step result) out.new }
{
    let n = name(input, from, out)?;
    sign(input, COLON, n.position)
}

// `A → B → C`
pub fn arrows(input: Input, from: Position, out: &mut [[u32; 4]]) -> Result<Read, Rejection>
    requires { Room input.tokens.now from.at from.used out.old }
    ensures { ReadsList 1 name_rows (λ _. arrows_of) input.entry from out.old (step result) out.new }
{
    list::<Name>(input, from, out)
}

// `x y z`, up to a colon
// Stays: as `items::list`, but with `Bound` for `Next<Name>`; a trait of both with a first item's grammar and reader takes 18 lines, and this body 6.
pub fn names(input: Input, from: Position, out: &mut [[u32; 4]]) -> Result<Read, Rejection>
    requires { Room input.tokens.now from.at from.used out.old }
    ensures { ReadsList 1 name_rows (λ _. names_of) input.entry from out.old (step result) out.new }
{
    let first = name(input, from, out)?;
    let rest = all::<Bound>(input, first.position, out)?;
    Ok(Read {
        count: rest.count + 1,
        ..rest
    })
}

// `J → J → J`
pub fn judgments(input: Input, from: Position, out: &mut [[u32; 4]]) -> Result<Read, Rejection>
    requires { Room input.tokens.now from.at from.used out.old }
    ensures { ReadsList 1 rows_of judgments_of input.entry from out.old (step result) out.new }
{
    list::<Judgment>(input, from, out)
}

// `p, p, p`, or nothing before `=>`
pub fn patterns(input: Input, from: Position, out: &mut [[u32; 4]]) -> Result<Read, Rejection>
    requires { Room input.tokens.now from.at from.used out.old }
    ensures { ReadsList 0 rows_of patterns_of input.entry from out.old (step result) out.new }
{
    if peek(input.tokens, from.at).kind == DOUBLE_ARROW {
        return Ok(Read {
            position: from,
            count: 0,
        });
    }
    list::<Pattern>(input, from, out)
}
