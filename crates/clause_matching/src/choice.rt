// The clause of a function that fits values: part of the Rust's `Evaluator::call`.
ghost use Rattle.std.specs.Prelude.{◌≡◌, true, ◌<◌, length};
ghost use Rattle.terms.specs.Bindings.{start};
ghost use Rattle.evaluation.specs.Matching.{misfit, bind_of};
ghost use Rattle.clause_matching.specs.Choice.{patterns_from, values_of, ApartAsked, ClauseAsked, Chosen};

use super::matching::{Values, bind};
use super::references::{Pattern, pattern_at};
use rules::RuleRow;
use rules::columns::CONCLUSION;

// Is the first pattern, whose reference stands at an address, a node of another symbol than the first value? Then the patterns do not fit.
fn is_apart(pattern: &[u32], base: usize, words: &[u32], values: &[u32]) -> bool
    requires { ApartAsked pattern.now base words.now values.now }
    ensures { result ≡ true → bind_of (patterns_from pattern.now base (length values.now))
        (values_of words.now values.now) start ≡ misfit }
{
    let Some(value) = values.first() else {
        return false;
    };
    match pattern_at(pattern, pattern[base]) {
        Pattern::Variable { index: _ } => false,
        Pattern::Node { header, first: _ } => header != words[*value as usize],
    }
}

// The clauses of a function: their part of the rules, and the words of their patterns.
#[derive(Clone, Copy)]
pub struct Clauses<'a> {
    pub rules: &'a [RuleRow],
    pub pattern: &'a [u32],
}

// The first of the clauses whose conclusion fits the arguments, which are values, by its place; the environment then holds those of its variables.
// Stays: as at `bind`, of the environment, links and stack.
pub fn find_clause(
    clauses: Clauses,
    arguments: &[u32],
    values: Values,
    environment: &mut [u32],
    links: &mut [u32],
    stack: &mut [[u32; 3]],
) -> Option<usize>
    requires { ClauseAsked clauses.rules.now clauses.pattern.now 0 (length clauses.rules.now) arguments.now values.words.now values.used
        environment.old links.old stack.old }
    ensures { Chosen clauses.entry.rules.now clauses.entry.pattern.now 0 (length clauses.entry.rules.now) arguments.now
        values.entry.words.now values.entry.used environment.old links.old result environment.new links.new }
{
    // Stays: fitting writes the environment that the caller needs, so that a closure for `find` would be one that writes, with a contract of what it wrote.
    'clauses: for (i, rule) in clauses.rules.iter().enumerate() {
        let Pattern::Node { header: _, first } = pattern_at(clauses.pattern, rule[CONCLUSION])
        else {
            // The conclusion of a clause in form is a node.
            unreachable!()
        };
        let base = first as usize;
        if is_apart(clauses.pattern, base, values.words, arguments) {
            continue 'clauses;
        }
        environment.fill(0);
        let patterns = &clauses.pattern[base..base + arguments.len()];
        for (reference, argument) in patterns.iter().zip(arguments) {
            if !bind(
                clauses.pattern,
                *reference,
                values,
                *argument,
                environment,
                links,
                stack,
            ) {
                continue 'clauses;
            }
        }
        return Some(i);
    }
    None
}
