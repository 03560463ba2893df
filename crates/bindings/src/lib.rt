// Bindings over stored terms (the Rust's `walk`, `occurs` and the undoing of its trail), on lent slices.
//
// `marks` are lent and left as they were. The terms have any room, since no law here asks for more than that it holds the variables; that of the crates
// above is `arena::TERM_ROOM`.
#![tactic(auto)]

pub use tables::{enter, undo};
pub use trails::is_reference;

mod tables; // a table with the list of its entries
mod visits; // marks and the queue of the occurs check
mod trails; // the check of trail and values

ghost use Rattle.std.specs.Prelude.{◌≡◌, ◌+◌, ◌<◌, ◌≤◌, length};
ghost use Rattle.arena.specs.Cells.{cells, headers, Reference, WellFormed};
ghost use Rattle.arena.specs.Copies.{term_room};
ghost use Rattle.arena.specs.Rows.{column};
ghost use Rattle.bindings.specs.Stored.{Form};
ghost use Rattle.bindings.specs.Promises.{Walked, Free, Checked, BindingsChecked};

use acyclicity::is_acyclic;
use arena::{TERM_ROOM, Terms};
use trails::{check_rest, check_trail};
use visits::Queue;

// Bindings in lent rows: by variable the value, 0 or 1 + a reference, and beside it the trail, whose first `bound` entries are the bound variables in
// their order.
// Stays: terms, bindings and marks have different owners; the rows hold all values beside the trail, so that no part up to `bound` can be lent.
// Stays: a struct of terms and bindings with `Form` in it would be made anew by `equate` at each pair, and for each rule that is tried, as both change.
// Stays: that a number is a `Reference` is asked beside it; a struct of it and the terms would be made anew for both of each pair that `equate` takes up.
#[derive(Clone, Copy)]
pub struct StoredBindings<'a> {
    pub rows: &'a [[u32; 2]],
    pub bound: u32,
}

// What of a session's storage is in use: variables, bindings and words.
#[derive(Clone, Copy)]
pub struct InUse {
    pub variables: u32,
    pub bound: u32,
    pub used: u32,
}

impl InUse {
    // The terms in these words, of which so many are in use.
    pub fn terms(self, words: &[u32]) -> Terms<'_>
        ensures { (result.words.now ≡ words.now) × (result.room ≡ term_room) × (result.variables ≡ self.variables) × (result.used ≡ self.used) }
    {
        Terms {
            words,
            room: TERM_ROOM,
            variables: self.variables,
            used: self.used,
        }
    }

    // The bindings in these rows, of which so many are in use.
    pub fn bindings(self, rows: &[[u32; 2]]) -> StoredBindings<'_>
        ensures { (result.rows.now ≡ rows.now) × (result.bound ≡ self.bound) }
    {
        StoredBindings {
            rows,
            bound: self.bound,
        }
    }
}

// Where the bindings lead from r; only the rows and the room are read, the rest serves the contract.
pub fn walk(terms: Terms, bindings: StoredBindings, r: u32) -> u32
    requires fact_1 { Form terms.room terms.words.now bindings.rows.now terms.variables terms.used bindings.bound }
    requires fact_2 { Reference terms.room (cells terms.words.now) terms.variables terms.used r }
    ensures { Walked terms.entry.room terms.entry.words.now bindings.entry.rows.now terms.entry.variables terms.entry.used bindings.entry.bound r result }
{
    let mut q = r;
    while q < terms.room {
        let Some(value) = bindings.rows[q as usize][0].checked_sub(1) else {
            return q;
        };
        q = value;
    }
    q
}

// Whether the unbound variable x occurs in what r denotes, the bindings put in: a search that visits each reachable reference once.
// Stays: that marks are zero and long enough is asked of rows that C programs lend; a struct that knows it would be made for each call.
pub fn occurs(
    terms: Terms,
    bindings: StoredBindings,
    marks: &mut [[u32; 2]],
    x: u32,
    r: u32,
) -> bool
    requires fact_1 { Form terms.room terms.words.now bindings.rows.now terms.variables terms.used bindings.bound }
    requires fact_2 { Reference terms.room (cells terms.words.now) terms.variables terms.used r }
    requires fact_3 { (x < terms.variables) × (column 0 bindings.rows.now x ≡ 0) }
    requires fact_4 { Free terms.room terms.used marks.old }
    ensures { Checked terms.entry.room terms.entry.words.now bindings.entry.rows.now marks.old marks.new bindings.entry.bound x r result }
{
    let mut queue = Queue { marks, end: 0 };
    queue.visit(terms, r);
    let mut h = 0;
    // Stays: the queue grows while it is gone through, so no range is known at the start.
    let found = loop {
        if h == queue.end {
            break false;
        }
        let [_, y] = queue.marks[h as usize];
        if y == x {
            break true;
        }
        queue.visit_edges(terms, bindings, y);
        h += 1;
    };
    let end = queue.end;
    undo(queue.marks, end, 0);
    found
}

// Whether rows of any contents are bindings in form over words in form.
pub fn check_bindings(terms: Terms, bindings: StoredBindings, marks: &mut [[u32; 2]]) -> bool
    requires fact_1 { WellFormed terms.room (cells terms.words.now) terms.variables terms.used }
    requires fact_2 { (terms.variables ≤ terms.room) × (terms.room + terms.used ≤ headers) × (terms.used ≤ length terms.words.now) }
    requires fact_3 { Free terms.room terms.used marks.old }
    ensures { BindingsChecked terms.entry.room terms.entry.words.now bindings.entry.rows.now marks.old marks.new
        terms.entry.variables terms.entry.used bindings.entry.bound result }
{
    if bindings.rows.len() < terms.variables as usize {
        return false;
    }
    if terms.variables < bindings.bound {
        return false;
    }
    if check_trail(terms, bindings, marks) {
        if check_rest(bindings) {
            return is_acyclic(terms, bindings.rows, marks);
        }
        return false;
    }
    false
}
