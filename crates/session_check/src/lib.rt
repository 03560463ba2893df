// Sessions in storage: the test of their form (document 01, refusal 1), which is `SessionListed` of sessions' specs/Storage.
//
// `check_session` tells it, with the lengths that a call's limits ask and the scratch that must be zero. Of its caller it asks only that
// the symbols are there, which the test of the signature tells first.
#![tactic(auto)]

mod lengths; // lengths and counts
mod naming; // the rows of names
mod nodes; // words over the signature's arities

ghost use Rattle.std.specs.Prelude.{◌≤◌, length};
ghost use Rattle.sessions.specs.Storage.{part_in};
ghost use Rattle.session_check.specs.Parts.{SessionChecked};

use arena::{TERM_ROOM, Terms};
use bindings::StoredBindings;
use checks::is_scratch_zero;
pub use lengths::Lengths;
use lengths::is_counted;
use naming::{NameBounds, are_names_listed};
use nodes::are_words_formed;
use sessions::StoredSession;
use signature::StoredSignature;

// Is a session's storage in form, lent as the limits ask, with zero scratch? Every entry point that is lent one asks this before it
// writes. The marks are left as they are.
// Stays: only the marks are written; with a `Workspace` the contract would have to promise besides that links and stack are as before.
pub fn check_session(
    text: &[u8],
    limits: words::Limits,
    signature: StoredSignature,
    session: StoredSession,
    links: &[[u32; 2]],
    marks: &mut [[u32; 2]],
    stack: &[[u32; 3]],
) -> bool
    requires { (signature.counts.symbols ≤ 1024) × (signature.counts.symbols ≤ length signature.symbols.now) }
    ensures { SessionChecked text.now limits signature.entry.counts.sorts signature.entry.symbols.now signature.entry.counts.symbols
        (part_in session.entry) (record { links = links.now; marks = marks.old; stack = stack.now }) session.entry.counts marks.new result }
{
    let counts = session.counts;
    let words = session.words;
    let lengths = Lengths::of(session.names, words, session.bindings, links, marks, stack);
    if lengths.are_short(limits) {
        return false;
    }
    if !is_counted(session) {
        return false;
    }
    let names = &session.names[..counts.names as usize];
    let bounds = NameBounds {
        sorts: signature.counts.sorts,
        variables: counts.variables,
    };
    if !are_names_listed(text, names, bounds) {
        return false;
    }
    let symbols = signature.symbols_in_use();
    let terms = Terms {
        words,
        room: TERM_ROOM,
        variables: counts.variables,
        used: counts.words,
    };
    if !are_words_formed(symbols, terms) {
        return false;
    }
    if !is_scratch_zero(TERM_ROOM, counts.words, links, marks, stack) {
        return false;
    }
    let held = StoredBindings {
        rows: session.bindings,
        bound: counts.bound,
    };
    bindings::check_bindings(terms, held, marks)
}
