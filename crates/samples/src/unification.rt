// One call of `unify`, `occurs` or `check_bindings` on storage that is tested first, and of `undo` after it.
ghost use Rattle.std.specs.Prelude.{◌≡◌};
ghost use Rattle.samples.specs.Scratch.{Clean};
ghost use Rattle.bindings.specs.Promises.{Tells};

use super::{report, rows};
use arena::Terms;
use bindings::{InUse, StoredBindings};
use unifier::Workspace;

// What a call leaves: the words, the bindings and the marks, beside the bindings that stood before it.
#[derive(Drop)]
pub struct Remains<'a> {
    pub words: &'a [u32],
    pub before: &'a [[u32; 2]],
    pub bindings: &'a mut [[u32; 2]],
    pub marks: &'a mut [[u32; 2]],
}

impl Remains<'_> {
    // Says so if the bindings are not those that stood before.
    pub fn compare(&self) {
        compare(self.bindings, self.before);
    }
}

// Why a call has no answer.
#[derive(Clone, Copy)]
pub enum Fault {
    // The storage is not what the call asks.
    NotReady,
    // The scratch is not zero again.
    ScratchLeft,
}

// Whether all scratch is zero.
// Stays: with a `Workspace`, which lends the three to be written, callers that lend them to be read would be asked for more.
pub fn is_clean(links: &[[u32; 2]], marks: &[[u32; 2]], stack: &[[u32; 3]]) -> bool
    ensures { Tells result (Clean links.now marks.now stack.now) }
{
    checks::is_scratch_zero(0, 0, links, marks, stack)
}

// Whether the two references unify: how many bindings there are then.
// Stays: the count of bindings and the references are handed on to `unify` as they are; a struct of them would be taken apart for that.
pub fn solve(
    terms: Terms,
    bindings: &mut [[u32; 2]],
    workspace: Workspace,
    bound: u32,
    left: u32,
    right: u32,
) -> Result<Option<u32>, Fault> {
    // Stays: tried with it moved whole to a variable: a field, `marks`, of a struct given by value that is lent as `&mut`, to `is_ready`, is not covered.
    let Workspace {
        links,
        marks,
        stack,
    } = workspace;
    let held = StoredBindings {
        rows: bindings,
        bound,
    };
    if !checks::is_ready(terms, held, links, marks, stack, left, right) {
        return Err(Fault::NotReady);
    }
    let mut lent = Workspace {
        links,
        marks,
        stack,
    };
    let ended = unifier::unify(terms, bindings, &mut lent, bound, left, right);
    let Workspace {
        links,
        marks,
        stack,
    } = lent;
    is_clean(links, marks, stack)
        .then_some(ended)
        .ok_or(Fault::ScratchLeft)
}

// Whether the variable occurs in what the reference denotes.
pub fn ask(
    terms: Terms,
    held: StoredBindings,
    marks: &mut [[u32; 2]],
    variable: u32,
    reference: u32,
) -> Result<bool, Fault> {
    if !checks::is_form(terms, held, marks) {
        return Err(Fault::NotReady);
    }
    if !bindings::is_reference(terms, reference) {
        return Err(Fault::NotReady);
    }
    if terms.variables <= variable {
        return Err(Fault::NotReady);
    }
    if held.rows[variable as usize][0] != 0 {
        return Err(Fault::NotReady);
    }
    let answer = bindings::occurs(terms, held, marks, variable, reference);
    checks::are_zero(marks, 0)
        .then_some(answer)
        .ok_or(Fault::ScratchLeft)
}

// Whether rows are bindings in form.
pub fn check(terms: Terms, held: StoredBindings, marks: &mut [[u32; 2]]) -> Result<bool, Fault> {
    if !checks::is_unmarked(terms, marks) {
        return Err(Fault::NotReady);
    }
    let answer = bindings::check_bindings(terms, held, marks);
    checks::are_zero(marks, 0)
        .then_some(answer)
        .ok_or(Fault::ScratchLeft)
}

// Takes back the bindings from the mark on, where all of them are in form.
// Stays: `bound` counts bindings, and no marks.
pub fn take_back(
    terms: Terms,
    bindings: &mut [[u32; 2]],
    marks: &mut [[u32; 2]],
    bound: u32,
    mark: u32,
) -> bool {
    let held = StoredBindings {
        rows: bindings,
        bound,
    };
    if !checks::is_form(terms, held, marks) {
        return false;
    }
    if bound < mark {
        return false;
    }
    bindings::undo(bindings, bound, mark);
    checks::are_zero(marks, 0)
}

// Writes the new bindings, takes them back, and says so if that does not give the rows that stood before.
pub fn finish(remains: Remains, in_use: InUse, mark: u32) {
    let Remains {
        words,
        before,
        bindings,
        marks,
    } = remains;
    let terms = in_use.terms(words);
    report::bindings(bindings, mark, in_use.bound);
    if !take_back(terms, bindings, marks, in_use.bound, mark) {
        report::text(b", which are not in form");
        return;
    }
    if !rows::are_same(bindings, before) {
        report::text(b", and undoing left other bindings");
        return;
    }
    report::text(b", undone");
}

// Says so if two lists of bindings are not the same.
pub fn compare(bindings: &[[u32; 2]], before: &[[u32; 2]]) {
    if !rows::are_same(bindings, before) {
        report::text(b", and other bindings stand");
    }
}
