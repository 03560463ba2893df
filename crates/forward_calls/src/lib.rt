// Forward calls: which `#eval` is evaluated (document 01, "Evaluated terms"; the Rust's `is_forward_call`).
//
// `is_forward_call` serves the crates above: it asks for rows that stand for a term.
#![tactic(auto)]

ghost use Rattle.forward_calls.specs.Ground.{GroundAsked, GroundAnswered};
ghost use Rattle.forward_calls.specs.Forward.{ForwardAsked, ForwardAnswered};

use names::columns::ARITY;
use names::{Source, SourceTerms, SymbolRow};

// Whether a term has no metavariable: its rows stand in preorder, so one pass over them sees every part.
// Stays: tried by `any` up to the row that `clauses::skip` finds: its goal `skip-end-requires` is open, as here there may be more than 65,536 rows.
pub fn is_ground(term: Source) -> bool
    requires { GroundAsked term.text.now term.rows.now term.at }
    ensures { GroundAnswered term.entry.text.now term.entry.rows.now term.entry.at result }
{
    // How many terms are still to be seen from the row on; there is one at least.
    let mut left: usize = 1;
    for row in &term.rows[term.at..] {
        if row[0] == words::METAVARIABLE {
            return false;
        }
        left -= 1;
        left += flattening::arity(row);
        if left == 0 {
            return true;
        }
    }
    true
}

// Whether a term is a function's name with all arguments but its result, and has no metavariable. Every other one is a goal.
pub fn is_forward_call(term: Source, symbols: &[SymbolRow]) -> bool
    requires { ForwardAsked term.text.now term.rows.now term.at symbols.now }
    ensures { ForwardAnswered term.entry.text.now term.entry.rows.now term.entry.at symbols.now result }
{
    let row = &term.rows[term.at];
    let source = SourceTerms {
        text: term.text,
        rows: term.rows,
        symbols,
    };
    let Some(i) = flattening::callee(source, row) else {
        return false;
    };
    if symbols[i][ARITY].checked_sub(1) != Some(row[3]) {
        return false;
    }
    is_ground(term)
}
