// Patterns against values: the Rust's `bind`. Values are stored terms with room for no variable, so that a reference is an address. An environment has a number
// for each variable of a clause: 0 for none, else 1 + the reference of its value.
// Stays: tried with `Option<u32>`: `mul 60 60` takes an eighth longer, and `reverse 25`, now at 5.0, would miss 5 times the Rust's speed.
ghost use Rattle.std.specs.Prelude.{◌≡◌, ◌+◌, ◌-◌, ◌<◌};
ghost use Rattle.terms.specs.Term.{var};
ghost use Rattle.arena.specs.Cells.{cells};
ghost use Rattle.arena.specs.Copies.{pattern_room};
ghost use Rattle.clause_matching.specs.Stored.{pattern_at};
ghost use Rattle.clause_matching.specs.Matching.{Lent, Matched, BindAsked};

use super::references::{Pattern, pattern_at};
use arena::Terms;

// Values: words of stored terms, of which so many are in use.
// Stays: the value in question and the environment go beside them; values are only read, and these change at each step.
// Stays: tried as `&words[..used]`: what a store's field is after a part of it was lent is not told (goal `call-follow-requires`, its `store-1.given`).
// Stays: that the words are values is asked beside it (`Lent`, `ClauseAsked`), as the laws speak of lists and would each take it as a hypothesis more.
#[derive(Clone, Copy)]
pub struct Values<'a> {
    pub words: &'a [u32],
    pub used: u32,
}

// Gives a variable its value if it has none; whether the value is then the variable's.
fn take(
    values: Values,
    value: u32,
    environment: &mut [u32],
    variable: u32,
    links: &mut [u32],
) -> bool
    requires { (variable < pattern_room) × Lent values.words.now values.used value environment.old links.old }
    ensures { Matched (var variable) values.entry.words.now values.entry.used value environment.old links.old result environment.new links.new }
{
    let i = variable as usize;
    let Some(old) = environment[i].checked_sub(1) else {
        environment[i] = value + 1;
        return true;
    };
    let terms = Terms {
        words: values.words,
        room: 0,
        variables: 0,
        used: values.used,
    };
    arena::equal(terms, links, old, value)
}

// As `bind`, of a pattern that is a node, by its header and the address of its first argument.
// Stays: as at `bind`, of the environment, links and stack.
fn bind_node(
    pattern: &[u32],
    header: u32,
    first: u32,
    values: Values,
    value: u32,
    environment: &mut [u32],
    links: &mut [u32],
    stack: &mut [[u32; 3]],
) -> bool
    requires { (0 < first) × (header ≡ cells pattern.now (first - 1))
        × BindAsked pattern.now (first - 1 + pattern_room) values.words.now values.used value environment.old links.old stack.old }
    ensures { Matched (pattern_at pattern.now (first - 1 + pattern_room)) values.entry.words.now values.entry.used value
        environment.old links.old result environment.new links.new }
{
    if header != values.words[value as usize] {
        return false;
    }
    // A row of the stack is an open node: the addresses of its next argument in the pattern and in the value, and how many are left.
    stack[0] = [first, value + 1, arena::arity_of(header)];
    let mut depth: usize = 1;
    // Stays: the stack grows and shrinks, so no range is known at the start.
    while let Some(row) = depth.checked_sub(1) {
        let [at, across, left] = stack[row];
        let Some(rest) = left.checked_sub(1) else {
            depth = row;
            continue;
        };
        stack[row] = [at + 1, across + 1, rest];
        let other = values.words[across as usize];
        match pattern_at(pattern, pattern[at as usize]) {
            Pattern::Variable { index } => {
                if !take(values, other, environment, index, links) {
                    return false;
                }
            }
            Pattern::Node {
                header: wanted,
                first: inner,
            } => {
                if wanted != values.words[other as usize] {
                    return false;
                }
                stack[depth] = [inner, other + 1, arena::arity_of(wanted)];
                depth += 1;
            }
        }
    }
    true
}

// Whether the value fits the pattern; its variables take their values.
// Stays: the environment is the caller's local, links and stack its store's; each function on a struct of the three would promise that the same come back.
// Stays: the pattern's words are the program's, the reference a number read in them; a struct of both would be put together again for each part.
// Stays: callers may lend a longer environment, and an array in its place would ask for exactly 64 numbers.
pub fn bind(
    pattern: &[u32],
    reference: u32,
    values: Values,
    value: u32,
    environment: &mut [u32],
    links: &mut [u32],
    stack: &mut [[u32; 3]],
) -> bool
    requires { BindAsked pattern.now reference values.words.now values.used value environment.old links.old stack.old }
    ensures { Matched (pattern_at pattern.now reference) values.entry.words.now values.entry.used value environment.old links.old result environment.new links.new }
{
    match pattern_at(pattern, reference) {
        Pattern::Variable { index } => take(values, value, environment, index, links),
        Pattern::Node { header, first } => {
            bind_node(
                pattern,
                header,
                first,
                values,
                value,
                environment,
                links,
                stack,
            )
        }
    }
}
