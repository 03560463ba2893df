// Whether bindings are in the form that `acyclicity::is_acyclic` requires, so that a case may have any contents.
ghost use Rattle.std.specs.Prelude.{◌≡◌, true};
ghost use Rattle.arena.specs.Cells.{cells};
ghost use Rattle.acyclicity_test.specs.Form.{BindingInForm, BindingsInForm};

use arena::Terms;
use bindings::is_reference;

// Whether a word is 0, or 1 + a reference.
fn is_binding(terms: Terms, word: u32) -> bool
    ensures { result ≡ true → BindingInForm terms.entry.room (cells terms.entry.words.now) terms.entry.variables terms.entry.used word }
{
    let Some(reference) = word.checked_sub(1) else {
        return true;
    };
    terms.used as usize <= terms.words.len() && is_reference(terms, reference)
}

// Whether the bindings of the variables in use are in form.
pub fn are_bindings(terms: Terms, bindings: &[[u32; 2]]) -> bool
    ensures { result ≡ true → BindingsInForm terms.entry.room terms.entry.words.now bindings.now terms.entry.variables terms.entry.used }
{
    let end = terms.variables as usize;
    if bindings.len() < end {
        return false;
    }
    bindings[..end].iter().all(|row| is_binding(terms, row[0]))
}
