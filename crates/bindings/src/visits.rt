// Visiting references for the occurs check: marks by reference, with the queue as their list.
ghost use Rattle.std.specs.Prelude.{◌≡◌, ℕ, suc, ◌+◌, ◌-◌, ◌<◌, ◌≤◌, length};
ghost use Rattle.arena.specs.Cells.{cells, headers, arity_of, Reference};
ghost use Rattle.arena.specs.Rows.{column};
ghost use Rattle.bindings.specs.Stored.{Form, Edge};
ghost use Rattle.bindings.specs.Entries.{Entries};
ghost use Rattle.bindings.specs.Search.{Grown, ArgumentOf};

use super::StoredBindings;
use super::tables::enter;
use arena::Terms;

// The queue of the occurs check: its entries are those references that have a mark, in the order in which they were met.
// Stays: the marks of all references stand in the rows beside the queue, so that no part up to the queue's end can be lent.
// Stays: `Entries` has for each mark its place in the queue, so a ghost field takes it only truncated, and `Grown`, which holds it, would not follow.
// Stays: each function promises that the same marks are lent afterwards; an invariant tells of one value, and not of the one before.
// Stays: that each reference has a mark is asked beside it; with the terms in the queue each method would promise besides that they are as before.
#[derive(Drop)]
pub struct Queue<'a> {
    pub marks: &'a mut [[u32; 2]],
    pub end: u32,
}

impl Queue<'_> {
    // Marks y and puts it at the queue's end, unless it is marked. Nothing of the terms is read: they serve the contract.
    pub fn visit(&mut self, terms: Terms, y: u32)
        requires fact_1 { Entries self.old.marks.now (terms.room + terms.used) self.old.end }
        requires fact_2 { (y < terms.room + terms.used) × (terms.room + terms.used ≤ length self.old.marks.now) }
        requires fact_3 { terms.room + terms.used ≤ headers }
        ensures grown { Grown (terms.entry.room + terms.entry.used) (λ z. z ≡ y) self.old.marks.now self.old.end self.new.marks.now self.new.end }
        ensures lent { self.new.marks.ghost_name ≡ self.old.marks.ghost_name }
    {
        if self.marks[y as usize][0] == 0 {
            enter(self.marks, self.end, y, 1);
            self.end += 1;
        }
    }

    // Visits the arguments of the node r.
    fn visit_args(&mut self, terms: Terms, r: u32)
        requires fact_1 { Entries self.old.marks.now (terms.room + terms.used) self.old.end }
        requires fact_2 { (terms.room ≤ r) × (r - terms.room + arity_of (cells terms.words.now (r - terms.room)) < length terms.words.now)
            × (terms.room + terms.used ≤ length self.old.marks.now) }
        requires fact_3 { (i : ℕ) → i < arity_of (cells terms.words.now (r - terms.room)) → cells terms.words.now (suc (r - terms.room) + i) < terms.room + terms.used }
        requires fact_4 { terms.room + terms.used ≤ headers }
        ensures grown { Grown (terms.entry.room + terms.entry.used)
            (ArgumentOf terms.entry.words.now (r - terms.entry.room) (arity_of (cells terms.entry.words.now (r - terms.entry.room))))
            self.old.marks.now self.old.end self.new.marks.now self.new.end }
        ensures lent { self.new.marks.ghost_name ≡ self.old.marks.ghost_name }
    {
        for y in terms.arguments(r) {
            self.visit(terms, *y);
        }
    }

    // Visits all that one step down from r leads to.
    pub fn visit_edges(&mut self, terms: Terms, bindings: StoredBindings, r: u32)
        requires fact_1 { Form terms.room terms.words.now bindings.rows.now terms.variables terms.used bindings.bound }
        requires fact_2 { Reference terms.room (cells terms.words.now) terms.variables terms.used r }
        requires fact_3 { Entries self.old.marks.now (terms.room + terms.used) self.old.end }
        requires fact_4 { terms.room + terms.used ≤ length self.old.marks.now }
        ensures grown { Grown (terms.entry.room + terms.entry.used) (Edge terms.entry.room (cells terms.entry.words.now) (column 0 bindings.entry.rows.now) r)
            self.old.marks.now self.old.end self.new.marks.now self.new.end }
        ensures lent { self.new.marks.ghost_name ≡ self.old.marks.ghost_name }
    {
        if r < terms.room {
            let Some(value) = bindings.rows[r as usize][0].checked_sub(1) else {
                return;
            };
            self.visit(terms, value);
            return;
        }
        self.visit_args(terms, r);
    }
}
