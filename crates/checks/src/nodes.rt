// Whether words are terms in form.
ghost use Rattle.std.specs.Prelude.{◌+◌, ◌<◌, ◌≤◌, length};
ghost use Rattle.arena.specs.Cells.{cells, headers, WellFormed};
ghost use Rattle.bindings.specs.Promises.{Tells};
ghost use Rattle.checks.specs.Ready.{NodeFormed, Stored};

use arena::{HEADERS, Terms, arity_of};
use bindings::is_reference;

// Whether the word at an address is no header, or that of a node in form.
fn is_node(terms: Terms, address: u32) -> bool
    requires { (address < terms.used) × (terms.used ≤ length terms.words.now) × (terms.room + terms.used ≤ headers) }
    ensures { Tells result (NodeFormed terms.entry.room (cells terms.entry.words.now) terms.entry.variables terms.entry.used address) }
{
    let node = terms.room + address;
    let header = terms.header(node);
    if header < HEADERS {
        return true;
    }
    if terms.used <= address + arity_of(header) {
        return false;
    }
    let before = Terms {
        used: address,
        ..terms
    };
    terms
        .arguments(node)
        .iter()
        .all(|argument| is_reference(before, *argument))
}

// Whether all nodes of the words in use are in form.
fn are_nodes(terms: Terms) -> bool
    requires { (terms.used ≤ length terms.words.now) × (terms.room + terms.used ≤ headers) }
    ensures { Tells result (WellFormed terms.entry.room (cells terms.entry.words.now) terms.entry.variables terms.entry.used) }
{
    (0..terms.used).all(|address| is_node(terms, address))
}

// Whether the words in use are terms in form, there is room for the variables, and all references are below the headers.
pub fn are_terms(terms: Terms) -> bool
    ensures { Tells result (Stored terms.entry.room terms.entry.words.now terms.entry.variables terms.entry.used) }
{
    if terms.room < terms.variables {
        return false;
    }
    if HEADERS
        .checked_sub(terms.room)
        .is_none_or(|most| most < terms.used)
    {
        return false;
    }
    if terms.words.len() < terms.used as usize {
        return false;
    }
    are_nodes(terms)
}
