// `unifier::unify` for programs in other languages that see to what it asks, as the measurements of its speed do. `capi::horn_unify` is the one for users.
#![tactic(auto)]

ghost use Rattle.arena.specs.Cells.{cells, Reference};
ghost use Rattle.arena.specs.Copies.{term_room};
ghost use Rattle.unifier.specs.Promises.{Scratch};
ghost use Rattle.bindings.specs.Stored.{Form};
ghost use Rattle.unifier.specs.Packing.{UnifiedAs};

use arena::{TERM_ROOM, Terms};
use unifier::Workspace;

// The caller sees to what `unify` asks. The answer is that of `capi::horn_unify`.
// Stays: programs in C call it, so each buffer and each number is a parameter of its own.
// Stays: the 13 lines are those of `capi::horn_unify` but for its test; one function of both would be called with ten arguments, a line for each, in each.
#[unsafe(no_mangle)]
pub extern "C" fn horn_unify_unchecked(
    words: &[u32],
    bindings: &mut [[u32; 2]],
    links: &mut [[u32; 2]],
    marks: &mut [[u32; 2]],
    stack: &mut [[u32; 3]],
    variables: u32,
    used: u32,
    bound: u32,
    left: u32,
    right: u32,
) -> u64
    requires { (Form term_room words.now bindings.old variables used bound) × (((Reference term_room (cells words.now) variables used left)
        × (Reference term_room (cells words.now) variables used right)) × (Scratch term_room used links.old marks.old stack.old)) }
    ensures { UnifiedAs words.now bindings.old bindings.new links.old links.new
        marks.old marks.new stack.old stack.new variables used bound left right result }
{
    let terms = Terms {
        words,
        room: TERM_ROOM,
        variables,
        used,
    };
    let mut workspace = Workspace {
        links,
        marks,
        stack,
    };
    let ended = unifier::unify(terms, bindings, &mut workspace, bound, left, right);
    unifier::packed(ended, bound)
}
