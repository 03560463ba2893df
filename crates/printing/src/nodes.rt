// The goals of a tree's nodes.
ghost use Rattle.std.specs.Prelude.{◌≡◌, ◌<◌, ℕ, [], length, get_or};
ghost use Rattle.arena.specs.Cells.{cells, Reference};
ghost use Rattle.printing.specs.Terms.{most_nodes};
ghost use Rattle.printing.specs.Listing.{any_too_large};
ghost use Rattle.printing.specs.Lines.{entries_in};
ghost use Rattle.printing.specs.Stored.{Printable, term_in};

use super::printed::PrintedTerms;
use super::sizes::is_too_large;
use super::walk::OpenRow;
use tree_rows::TreeRow;

// Has a node a goal that prints more nodes than are allowed? What came of its `#eval` is refused by 39 then.
pub fn any_too_large(printed: PrintedTerms, rows: &[TreeRow], stack: &mut [OpenRow]) -> bool
    requires printable { Printable printed }
    requires stored { (i : ℕ) → i < length rows.now → Reference printed.terms.room (cells printed.terms.words.now) printed.terms.variables printed.terms.used (get_or (get_or rows.now i []) 3 0) }
    requires rows { most_nodes < length stack.old }
    ensures { result ≡ any_too_large (entries_in (term_in printed.entry) rows.now) }
{
    // Stays: measuring writes the stack, so that a closure for `any` would be one that writes, with a contract of what it asks and what it leaves.
    for row in rows {
        let [_, _, _, goal, ..] = *row;
        if is_too_large(printed, goal, stack) {
            return true;
        }
    }
    false
}
