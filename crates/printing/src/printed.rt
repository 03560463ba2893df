// Stored terms as they are printed.
use arena::Terms;
use bindings::StoredBindings;
use names::SymbolRow;

// Stays: `Form`, which each function here asks, is no proposition, so a ghost field would take it only truncated, and `bindings::walk` asks it whole.
// Stays: that a number is a `Reference` is asked beside it; a struct of it and the terms would be made of each row's goal, to be read once.
// Stored terms over symbols whose names stand in a text, and the bindings that are put into them.
#[derive(Clone, Copy)]
pub struct PrintedTerms<'a> {
    pub text: &'a [u8],
    pub symbols: &'a [SymbolRow],
    pub terms: Terms<'a>,
    pub bindings: StoredBindings<'a>,
}
