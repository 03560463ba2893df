// Calls of functions: the Rust's `Evaluator::call`.
ghost use Rattle.std.specs.Prelude.{◌≡◌, ◌≤◌};
ghost use Rattle.function_calls.specs.Calls.{CallAsked, CallAnswered, FollowAsked, Followed, PremiseAsked, PremiseAnswered, IsLent};

use arena::{INPUTS, PATTERN_ROOM, arity_of};
use clause_matching::{
    Built, Clauses, Pattern, Room, Values, bind, find_clause, instantiate, instantiate_arguments,
    pattern_at,
};
use names::SymbolRow;
use names::columns::{CLAUSES, FIRST_CLAUSE};
use refusals::Refusal;
use rules::RuleRow;
use rules::columns::CONCLUSION;
pub use tree_rows::TreeRow;

// The deepest expression or call.
pub const MAX_DEPTH: u32 = 128;

// The most calls of one evaluation.
pub const MAX_CALLS: u32 = 10000;

// What an evaluation has spent: the calls made and the words used.
// Stays: that each call has taken two words holds only where no call is open, as in `expressions`; in a call it is said with the depth.
#[derive(Clone, Copy)]
pub struct Spent {
    pub calls: u32,
    pub used: u32,
}

// The outcome of a call: its value, and what is spent then.
#[derive(Clone, Copy)]
pub struct Outcome {
    pub value: u32,
    pub spent: Spent,
}

impl Outcome {
    // The outcome where a value was built: no call was made for it.
    pub fn of_built(built: Built, spent: Spent) -> Self
        ensures { result ≡ record { value = built.value; spent = record { calls = spent.calls; used = built.used } } }
    {
        Outcome {
            value: built.value,
            spent: Spent {
                used: built.used,
                ..spent
            },
        }
    }
}

// Where a call stands: its depth, and the height of its row among the trees.
#[derive(Clone, Copy)]
pub struct Level {
    pub depth: u32,
    pub height: u32,
    ghost high: { height ≤ depth },
}

// A program: its symbols, its rules, the words of their patterns, and how many words its values may take.
// Stays: that it is in form says there are symbols and rules that it stores; what each function asks besides names them, and a ghost field hides them.
#[derive(Clone, Copy)]
pub struct Program<'a> {
    pub symbols: &'a [SymbolRow],
    pub rules: &'a [RuleRow],
    pub pattern: &'a [u32],
    pub limit: u32,
}

impl Program<'_> {
    // Where values are built once so much is spent.
    pub fn room(self, spent: Spent) -> Room
        ensures { result ≡ record { used = spent.used; limit = self.entry.limit } }
    {
        Room {
            used: spent.used,
            limit: self.limit,
        }
    }
}

// What an evaluation writes: the words of values, links for comparing them, a row of trees for each call, and a row of the stack for each node that is open.
// Stays: each function promises that the same buffers are lent afterwards (`IsLent`); an invariant tells of one value, and not of the one before.
// Stays: the counts are not in it, since they are answered; that they fit its buffers is asked beside them (`Working`), by the limit of the program.
#[derive(Drop)]
pub struct Store<'a> {
    pub words: &'a mut [u32],
    pub links: &'a mut [u32],
    pub trees: &'a mut [TreeRow],
    pub stack: &'a mut [[u32; 3]],
}

// One premise of a clause, a node by its header and the address of its first argument: its call, whose value has to fit its last argument.
// Stays: program and store are apart: as one struct behind `&mut`, the contracts of the six functions on both would promise besides that the program stands.
// Stays: no struct of program, level and spent: of the four calls that pass them on only that of `follow` has the same three; each other would make it anew.
#[cycle(call_follow_premise)]
fn premise(
    program: Program,
    header: u32,
    first: u32,
    level: Level,
    spent: Spent,
    environment: &mut [u32],
    store: &mut Store,
) -> Result<Outcome, Refusal>
    requires { PremiseAsked program.symbols.now program.rules.now program.pattern.now header first level.depth level.height spent.calls spent.used program.limit
        environment.old store.old.words.now store.old.links.now store.old.trees.now store.old.stack.now }
    ensures answered { PremiseAnswered program.entry.symbols.now program.entry.rules.now program.entry.pattern.now header first
        level.depth level.height spent.calls spent.used program.entry.limit
        environment.old store.old.words.now store.old.links.now store.old.trees.now result
        environment.new store.new.words.now store.new.links.now store.new.trees.now }
    ensures lent { IsLent store.old store.new }
{
    let count = (arity_of(header) - 1) as usize;
    let mut values = [0u32; INPUTS as usize];
    let before = instantiate_arguments(
        program.pattern,
        first,
        environment,
        store.words,
        program.room(spent),
        store.stack,
        &mut values[..count],
    )?;
    let symbol = arena::symbol_of(header);
    let below = Level {
        depth: level.depth + 1,
        height: level.height + 1,
    };
    let from = Spent {
        used: before,
        ..spent
    };
    let outcome = call(program, symbol, &values[..count], below, from, store)?;
    let last = program.pattern[first as usize + count];
    let words = &mut *store.words;
    let among = Values {
        words,
        used: outcome.spent.used,
    };
    if !bind(
        program.pattern,
        last,
        among,
        outcome.value,
        environment,
        store.links,
        store.stack,
    ) {
        return Err(Refusal::Inconsistent);
    }
    Ok(outcome)
}

// The clause that was taken: its premises in order, and then its conclusion, whose last argument is the value.
#[cycle(call_follow_premise)]
fn follow(
    program: Program,
    rule: usize,
    level: Level,
    before: Spent,
    environment: &mut [u32],
    store: &mut Store,
) -> Result<Outcome, Refusal>
    requires { FollowAsked program.symbols.now program.rules.now program.pattern.now rule level.depth level.height before.calls before.used program.limit
        environment.old store.old.words.now store.old.links.now store.old.trees.now store.old.stack.now }
    ensures answered { Followed program.entry.symbols.now program.entry.rules.now program.entry.pattern.now rule
        level.depth level.height before.calls before.used program.entry.limit
        environment.old store.old.words.now store.old.links.now store.old.trees.now result
        store.new.words.now store.new.links.now store.new.trees.now }
    ensures lent { IsLent store.old store.new }
{
    let mut spent = Spent {
        calls: before.calls + 1,
        ..before
    };
    for reference in rules::premises(&program.rules[rule]) {
        let Pattern::Node { header, first } = pattern_at(program.pattern, *reference) else {
            // A premise in form is a node.
            unreachable!()
        };
        let outcome = premise(program, header, first, level, spent, environment, store)?;
        spent = outcome.spent;
    }
    let built = instantiate(
        program.pattern,
        program.rules[rule][CONCLUSION],
        environment,
        store.words,
        program.room(spent),
        store.stack,
    )?;
    store.trees[before.calls as usize] = tree_rows::row(level.height, rule as u32, built.value);
    let header = store.words[built.value as usize];
    let result = Built {
        value: store.words[(built.value + arity_of(header)) as usize],
        ..built
    };
    Ok(Outcome::of_built(result, spent))
}

// A call of the function `symbol` on values.
#[cycle(call_follow_premise)]
pub fn call(
    program: Program,
    symbol: usize,
    values: &[u32],
    level: Level,
    spent: Spent,
    store: &mut Store,
) -> Result<Outcome, Refusal>
    requires { CallAsked program.symbols.now program.rules.now program.pattern.now symbol values.now level.depth level.height spent.calls spent.used program.limit
        store.old.words.now store.old.links.now store.old.trees.now store.old.stack.now }
    ensures answered { CallAnswered program.entry.symbols.now program.entry.rules.now program.entry.pattern.now symbol values.now
        level.depth level.height spent.calls spent.used program.entry.limit
        store.old.words.now store.old.links.now store.old.trees.now result store.new.words.now store.new.links.now store.new.trees.now }
    ensures lent { IsLent store.old store.new }
{
    if MAX_DEPTH < level.depth {
        return Err(Refusal::TooDeep);
    }
    if MAX_CALLS <= spent.calls {
        return Err(Refusal::TooManyCalls);
    }
    let from = program.symbols[symbol][FIRST_CLAUSE] as usize;
    let end = from + program.symbols[symbol][CLAUSES] as usize;
    let clauses = Clauses {
        rules: &program.rules[from..end],
        pattern: program.pattern,
    };
    let mut environment = [0u32; PATTERN_ROOM as usize];
    let words = &mut *store.words;
    let among = Values {
        words,
        used: spent.used,
    };
    let place = find_clause(
        clauses,
        values,
        among,
        &mut environment,
        store.links,
        store.stack,
    )
    .ok_or(Refusal::NoClause)?;
    follow(program, from + place, level, spent, &mut environment, store)
}
