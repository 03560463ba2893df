// A symbol on the values of its arguments.
ghost use Rattle.std.specs.Prelude.{List, ℕ, ◌≤◌};
ghost use Rattle.names.specs.Symbols.{symbol_of, column};
ghost use Rattle.evaluation.specs.Expressions.{misuse};
ghost use Rattle.function_calls.specs.Calls.{IsLent};
ghost use Rattle.expressions.specs.Nodes.{Finds};
ghost use Rattle.expressions.specs.Applying.{ApplyAsked, ApplyAnswered};

use super::nodes::build;
use function_calls::{Level, Outcome, Program, Spent, Store, call};
use names::columns::{ARITY, MARK, OUTPUT};
use names::{FUNCTION, NO_FUNCTION, SymbolRow};
use refusals::Refusal;

// What a symbol on so many arguments is refused for, if it is.
pub fn check_use(symbol: &SymbolRow, arguments: usize) -> Result<(), Refusal>
    requires { (column symbol.now 3 ≤ 1) × (column symbol.now 3 ≤ column symbol.now 6) × (column symbol.now 6 ≤ 16) }
    ensures { (text : List ℕ) → Finds result (misuse (symbol_of text symbol.now) arguments) }
{
    if symbol[MARK] == NO_FUNCTION && symbol[OUTPUT] == 0 {
        return Err(Refusal::NoExpression);
    }
    // Stays: the mark is how many of the inputs are results, 1 of a FUNCTION and 0 of any other; a test of it would say the same in two branches.
    let wanted = symbol[ARITY] - symbol[MARK];
    if wanted as usize != arguments {
        return Err(Refusal::ArgumentCount);
    }
    Ok(())
}

// A constructor is built, a function called at the next depth.
// Stays: no struct of program, depth and spent: of the four calls that pass them on only that of `application` has the same three; each other makes it anew.
pub fn apply(
    program: Program,
    depth: u32,
    i: usize,
    values: &[u32],
    spent: Spent,
    store: &mut Store,
) -> Result<Outcome, Refusal>
    requires { ApplyAsked program.symbols.now program.rules.now program.pattern.now i values.now depth spent.calls spent.used program.limit
        store.old.words.now store.old.links.now store.old.trees.now store.old.stack.now }
    ensures answered { ApplyAnswered program.entry.symbols.now program.entry.rules.now program.entry.pattern.now i values.now
        depth spent.calls spent.used program.entry.limit
        store.old.words.now store.old.links.now store.old.trees.now result store.new.words.now store.new.links.now store.new.trees.now }
    ensures lent { IsLent store.old store.new }
{
    if program.symbols[i][MARK] == FUNCTION {
        let level = Level {
            depth: depth + 1,
            height: 1,
        };
        return call(program, i, values, level, spent, store);
    }
    let built = build(store.words, program.room(spent), i, values)?;
    Ok(Outcome::of_built(built, spent))
}
