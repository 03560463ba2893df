// Written terms: the Rust's `Evaluator::expression`.
ghost use Rattle.std.specs.Prelude.{length};
ghost use Rattle.function_calls.specs.Calls.{IsLent};
ghost use Rattle.expressions.specs.Terms.{ExpressionAsked, ExpressionAnswered, ApplicationAsked, ApplicationAnswered};

use super::applying::{apply, check_use};
use super::nodes::sort_of;
use super::numerals::numeral;
use arena::INPUTS;
use function_calls::{MAX_DEPTH, Outcome, Program, Spent, Store};
use names::columns::FIRST_INPUT;
use names::{Source, Word};
use refusals::Refusal;

// A term that has a value: the value with what is spent then, and the row behind the term.
// Stays: one `Ended<T>` of `Progress`, `EnteredRule`, `Expressed` and `Decimal` would call `item` what is `state`, `space`, `outcome` and `value`.
#[derive(Clone, Copy)]
pub struct Expressed {
    pub outcome: Outcome,
    pub next: usize,
}

// A symbol on so many arguments, of which the first is given, each at the next depth; the sort of each is tested at once.
#[cycle(application_expression)]
fn application(
    first: Source,
    arguments: usize,
    program: Program,
    i: usize,
    depth: u32,
    before: Spent,
    store: &mut Store,
) -> Result<Expressed, Refusal>
    requires { ApplicationAsked first.text.now first.rows.now first.at arguments program.symbols.now (length program.symbols.now) i
        program.rules.now program.pattern.now depth before.calls before.used program.limit
        store.old.words.now store.old.links.now store.old.trees.now store.old.stack.now }
    ensures answered { ApplicationAnswered first.entry.text.now first.entry.rows.now first.entry.at arguments
        program.entry.symbols.now (length program.entry.symbols.now) i
        program.entry.rules.now program.entry.pattern.now depth before.calls before.used program.entry.limit
        store.old.words.now store.old.links.now store.old.trees.now result store.new.words.now store.new.links.now store.new.trees.now }
    ensures lent { IsLent store.old store.new }
{
    let mut values = [0u32; INPUTS as usize];
    let mut p = first.at;
    let mut spent = before;
    // Stays: as at `names::put_column`, nothing would be known of what is written behind a `zip`.
    for (k, sort) in program.symbols[i][FIRST_INPUT..FIRST_INPUT + arguments]
        .iter()
        .enumerate()
    {
        let term = first.from_row(p);
        let argument = expression(term, program, depth + 1, spent, store)?;
        let value = argument.outcome.value;
        let header = store.words[value as usize];
        if sort_of(program.symbols, header) != *sort {
            return Err(Refusal::WrongSort);
        }
        values[k] = value;
        p = argument.next;
        spent = argument.outcome.spent;
    }
    let outcome = apply(program, depth, i, &values[..arguments], spent, store)?;
    Ok(Expressed { outcome, next: p })
}

// The value of a term at a depth, where so much is spent.
#[cycle(application_expression)]
pub fn expression(
    term: Source,
    program: Program,
    depth: u32,
    spent: Spent,
    store: &mut Store,
) -> Result<Expressed, Refusal>
    requires { ExpressionAsked term.text.now term.rows.now term.at program.symbols.now (length program.symbols.now)
        program.rules.now program.pattern.now depth spent.calls spent.used program.limit
        store.old.words.now store.old.links.now store.old.trees.now store.old.stack.now }
    ensures answered { ExpressionAnswered term.entry.text.now term.entry.rows.now term.entry.at
        program.entry.symbols.now (length program.entry.symbols.now)
        program.entry.rules.now program.entry.pattern.now depth spent.calls spent.used program.entry.limit
        store.old.words.now store.old.links.now store.old.trees.now result store.new.words.now store.new.links.now store.new.trees.now }
    ensures lent { IsLent store.old store.new }
{
    if MAX_DEPTH < depth {
        return Err(Refusal::TooDeep);
    }
    let row = &term.rows[term.at];
    // Stays: a match on the numbers of kinds and on no enum, since C reads the rows, and the row is lent with them.
    match row[0] {
        words::NUMERAL => {
            let built = numeral(
                term.text,
                program.symbols,
                row[3],
                depth,
                store.words,
                program.room(spent),
            )?;
            Ok(Expressed {
                outcome: Outcome::of_built(built, spent),
                next: term.at + 1,
            })
        }
        words::METAVARIABLE => Err(Refusal::NotGround),
        kind => {
            let word = Word::behind_kind(row);
            let i = names::find_at(term.text, program.symbols, kind, word).ok_or(
                Refusal::UnknownSymbol,
            )?;
            let arguments = row[3] as usize;
            check_use(&program.symbols[i], arguments)?;
            let first = term.from_row(term.at + 1);
            application(first, arguments, program, i, depth, spent, store)
        }
    }
}
