// Whether lent storage of any contents is what `unifier` asks of a session: terms in form, bindings in form, scratch zero. Each answer is exact.
#![tactic(auto)]

mod nodes; // words that are terms
mod zeros; // rows that are zero

ghost use Rattle.bindings.specs.Promises.{Tells};
ghost use Rattle.checks.specs.Ready.{Unmarked, FormTold, ReadyTold};

use arena::Terms;
use bindings::{StoredBindings, is_reference};
pub use nodes::are_terms;
pub use zeros::{are_zero, is_scratch_zero};

// Whether terms are in form, and there is a mark for each reference, all zero.
pub fn is_unmarked(terms: Terms, marks: &[[u32; 2]]) -> bool
    ensures { Tells result (Unmarked terms.entry.room terms.entry.words.now marks.now terms.entry.variables terms.entry.used) }
{
    if !are_terms(terms) {
        return false;
    }
    are_zero(marks, (terms.room + terms.used) as usize)
}

// Whether words and bindings are in form and the marks are zero; these are left as they are.
pub fn is_form(terms: Terms, bindings: StoredBindings, marks: &mut [[u32; 2]]) -> bool
    ensures { FormTold terms.entry.room terms.entry.words.now bindings.entry.rows.now marks.old marks.new
        terms.entry.variables terms.entry.used bindings.entry.bound result }
{
    if !is_unmarked(terms, marks) {
        return false;
    }
    bindings::check_bindings(terms, bindings, marks)
}

// Whether storage and two references are what `unifier::unify` asks; the marks are left as they are.
// Stays: only the marks are written; with a `Workspace` the contract would have to promise besides that links and stack are as before.
pub fn is_ready(
    terms: Terms,
    bindings: StoredBindings,
    links: &[[u32; 2]],
    marks: &mut [[u32; 2]],
    stack: &[[u32; 3]],
    left: u32,
    right: u32,
) -> bool
    ensures { ReadyTold terms.entry.room terms.entry.words.now bindings.entry.rows.now links.now marks.old marks.new
        stack.now terms.entry.variables terms.entry.used bindings.entry.bound left right result }
{
    if !is_form(terms, bindings, marks) {
        return false;
    }
    if !is_reference(terms, left) {
        return false;
    }
    if !is_reference(terms, right) {
        return false;
    }
    // Links and stack last: they may be much longer than what is asked for, and a refused call needs to read neither.
    if !are_zero(links, (terms.room + terms.used) as usize) {
        return false;
    }
    are_zero(stack, terms.used as usize)
}
