// Unification over stored terms (the Rust's `unify`), on lent slices.
//
// The terms have any room, as in `bindings`; that of the crates above is `arena::TERM_ROOM`.
#![tactic(auto)]

mod links; // links between equal nodes
mod stack; // the stack of open pairs
mod equations; // one decision, and the loop of unification

ghost use Rattle.std.specs.Prelude.{◌≡◌, is_some, unwrap_or};
ghost use Rattle.arena.specs.Cells.{cells, Reference};
ghost use Rattle.bindings.specs.Stored.{Form};
ghost use Rattle.unifier.specs.Promises.{Scratch, Unified};
ghost use Rattle.unifier.specs.Packing.{packed_unify};
ghost use Rattle.unifier.specs.Lending.{SameBuffers};

use arena::Terms;
use bindings::undo;
use equations::equate;
use stack::clear_before;

// What is to be done with two references that are to be made equal.
// Stays: three of the four cases are steps of the loop, and the fourth, a clash, is its end and no error of a caller.
#[derive(Clone, Copy)]
pub enum Decision {
    // They are equal already.
    Same,
    // The variable is to be bound to the reference.
    Bind(u32, u32),
    // The arguments of the two nodes are to be made equal.
    Open(u32, u32),
    // They cannot be made equal.
    Clash,
}

// How the loop of `unify` ended: whether the terms are equal, and how many bindings, links and open pairs there are.
// Stays: `unify` needs the counts where the terms are not equal too, to undo what was entered.
#[derive(Clone, Copy)]
pub struct Ending {
    pub equal: bool,
    pub bound: u32,
    pub linked: u32,
    pub pairs: u32,
}

// The scratch of unification, which is lent, and left as it was: the links between equal nodes, the marks of the occurs check, and the stack of open pairs.
// Stays: each function promises that the same buffers are lent afterwards (`SameBuffers`); an invariant tells of one value, and not of the one before.
#[derive(Drop)]
pub struct Workspace<'a> {
    pub links: &'a mut [[u32; 2]],
    pub marks: &'a mut [[u32; 2]],
    pub stack: &'a mut [[u32; 3]],
}

// How unification ended, as one number for programs in other languages: how many variables are bound, and 2^31 more where the terms unify. `before` is how
// many were bound before, as they are again where the terms do not unify.
// Stays: programs in C take the answer as one number; where the terms do not unify it is the count of before.
pub fn packed(ended: Option<u32>, before: u32) -> u64
    ensures { result ≡ packed_unify (is_some ended) (unwrap_or ended before) }
{
    match ended {
        Some(bound) => 0x8000_0000 + (bound as u64),
        None => before as u64,
    }
}

// Unifies what r and t denote under the first `bound` bindings; the answer is how many bindings there are then. Without success the bindings are undone to
// these. The scratch is left as it was.
// Stays: `StoredBindings` is only read; one that is written would be made anew at each call, and `bound` afterwards is the answer.
pub fn unify(
    terms: Terms,
    bindings: &mut [[u32; 2]],
    workspace: &mut Workspace,
    bound: u32,
    r: u32,
    t: u32,
) -> Option<u32>
    requires fact_1 { Form terms.room terms.words.now bindings.old terms.variables terms.used bound }
    requires fact_2 { (Reference terms.room (cells terms.words.now) terms.variables terms.used r) × (Reference terms.room (cells terms.words.now) terms.variables terms.used t) }
    requires fact_3 { Scratch terms.room terms.used workspace.old.links.now workspace.old.marks.now workspace.old.stack.now }
    ensures unified { Unified terms.entry.room terms.entry.words.now bindings.old bindings.new
        workspace.old.links.now workspace.new.links.now workspace.old.marks.now workspace.new.marks.now workspace.old.stack.now workspace.new.stack.now
        terms.entry.variables terms.entry.used bound (unwrap_or result bound) r t (is_some result) }
    ensures lent { SameBuffers workspace.old workspace.new }
{
    let e = equate(terms, bindings, workspace, bound, r, t);
    undo(workspace.links, e.linked, 0);
    clear_before(workspace.stack, e.pairs);
    if e.equal {
        return Some(e.bound);
    }
    undo(bindings, e.bound, bound);
    None
}
