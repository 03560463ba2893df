// Opening a session: lent storage is zeroed, and nothing is in use (document 01, "Search").
//
// The entry point is `open`. It asks nothing of its caller, and its contract fixes the answer and every lent buffer on all inputs.
#![tactic(auto)]

ghost use Rattle.sessions.specs.Promises.{Opening};

use refusals::Refusal;
use session_check::Lengths;
use sessions::NameRow;

// Opens a session in lent storage.
// Stays: programs in C lend each buffer by itself, and all are only zeroed here; a struct of them would be made for this one call.
pub fn open(
    limits: words::Limits,
    names: &mut [NameRow],
    words: &mut [u32],
    bindings: &mut [[u32; 2]],
    links: &mut [[u32; 2]],
    marks: &mut [[u32; 2]],
    stack: &mut [[u32; 3]],
) -> Result<(), Refusal>
    ensures { Opening limits (record { names = names.old; words = words.old; bindings = bindings.old })
        (record { links = links.old; marks = marks.old; stack = stack.old }) result
        (record { names = names.new; words = words.new; bindings = bindings.new })
        (record { links = links.new; marks = marks.new; stack = stack.new }) }
{
    let lengths = Lengths::of(names, words, bindings, links, marks, stack);
    if lengths.are_short(limits) {
        return Err(Refusal::Storage);
    }
    names.fill([0; 5]);
    words.fill(0);
    bindings.fill([0; 2]);
    links.fill([0; 2]);
    marks.fill([0; 2]);
    stack.fill([0; 3]);
    Ok(())
}
