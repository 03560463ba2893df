// Whether a call of `prove` is ready (document 01, refusal 1): nothing is written before this is known.
ghost use Rattle.signature.specs.Storage.{store_of};
ghost use Rattle.sessions.specs.Storage.{part_in};
ghost use Rattle.prover.specs.Proving.{ReadyTold};

use super::Query;
use sessions::StoredSession;
use tree_rows::TreeRow;

// Are signature, goal, session and scratch in form, and is enough lent? The marks are left as they are.
// Stays: only the marks are written; with a `Workspace` the contract would have to promise besides that links and stack are as before.
pub fn is_ready(
    query: Query,
    session: StoredSession,
    links: &[[u32; 2]],
    marks: &mut [[u32; 2]],
    stack: &[[u32; 3]],
    proof: &[TreeRow],
) -> bool
    ensures { ReadyTold (store_of query.entry.signature) query.entry.goal.text.now query.entry.limits query.entry.goal.rows.now query.entry.goal.at proof.now
        (record { links = links.now; marks = marks.old; stack = stack.now })
        (part_in session.entry) session.entry.counts marks.new result }
{
    let capped = query.limits.capped();
    if proof.len() < capped.steps as usize {
        return false;
    }
    if !signature::check_signature(query.goal.text, query.signature) {
        return false;
    }
    if term_check::check_term(query.goal).is_none() {
        return false;
    }
    session_check::check_session(
        query.goal.text,
        query.limits,
        query.signature,
        session,
        links,
        marks,
        stack,
    )
}
