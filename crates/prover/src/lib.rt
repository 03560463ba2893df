// Prover: a goal proved in a session (document 01, "Search"). Refusals 1, 19 to 26, 28, 37, 38.
//
// The entry point is `prove`. It asks nothing of its caller, and its contract fixes the answer and every lent buffer on all inputs.
// `prove_listed` serves programs that know what they lend to be in form, `prove_cleared` those that know besides that all past the counts is zero.
#![tactic(auto)]

mod clearing; // what lies past the counts
mod preparing; // a goal compiled, tested and stored
mod searching; // the search, and what it leaves
mod testing; // whether a call is ready

ghost use Rattle.search_machine.specs.Groups.{IsLent};
ghost use Rattle.signature.specs.Storage.{store_of};
ghost use Rattle.sessions.specs.Answers.{answer_in};
ghost use Rattle.sessions.specs.Promises.{ProveReady, Proving};
ghost use Rattle.prover.specs.Queries.{asked_in, session_in, given_in};
ghost use Rattle.prover.specs.Proving.{ClearedReady, ProveLeft};

use clearing::clear_past;
use names::Source;
use preparing::{is_too_much, prepare, search_limits};
use refusals::Refusal;
use search_machine::{Program, Store};
use searching::search_goal;
use sessions::{NameRow, SessionCounts, StoredSession, Verdict};
use signature::StoredSignature;
use testing::is_ready;
use words::Limits;

// What is asked of a signature: a goal as it is written, the limits, and how many steps and what depth the search may take.
#[derive(Clone, Copy)]
pub struct Query<'a> {
    pub signature: StoredSignature<'a>,
    pub goal: Source<'a>,
    pub limits: Limits,
    pub steps: u32,
    pub depth: u32,
}

// Proves a goal, where what is read is in form and all past the counts is zero: only what is written is cleared.
pub fn prove_cleared(
    query: Query,
    names: &mut [NameRow],
    store: &mut Store,
    session: SessionCounts,
) -> Result<Verdict, Refusal>
    requires { ClearedReady (store_of query.signature) (asked_in query store.old) (session_in names.old store.old) session }
    ensures left { ProveLeft (store_of query.entry.signature) (asked_in query.entry store.old)
        (session_in names.old store.old) session (given_in (answer_in result) names.new store.new) }
    ensures lent { IsLent store.old store.new }
{
    if is_too_much(query) {
        return Err(Refusal::TooMuch);
    }
    let signature = query.signature;
    let program = Program {
        rules: signature.rules_in_use(),
        pattern: signature.words,
        limits: search_limits(query.limits),
        frames: query.limits.capped().steps,
    };
    let goal = prepare(query, names, store.words, session)?;
    search_goal(program, names, store, goal, session, query)
}

// Proves the goal of a query, in a session, where all that is read is in form and the buffers are long enough.
// Stays: names and store are two, as the search is lent the store alone; counts beside them would be out of date, as those afterwards are in the verdict.
pub fn prove_listed(
    query: Query,
    names: &mut [NameRow],
    store: &mut Store,
    session: SessionCounts,
) -> Result<Verdict, Refusal>
    requires { ProveReady (store_of query.signature) (asked_in query store.old) (session_in names.old store.old) session }
    ensures left { ProveLeft (store_of query.entry.signature) (asked_in query.entry store.old)
        (session_in names.old store.old) session (given_in (answer_in result) names.new store.new) }
    ensures lent { IsLent store.old store.new }
{
    clear_past(names, store, session);
    prove_cleared(query, names, store, session)
}

// Proves the goal of a query, in a session.
pub fn prove(
    query: Query,
    names: &mut [NameRow],
    store: &mut Store,
    session: SessionCounts,
) -> Result<Verdict, Refusal>
    ensures proving { Proving (store_of query.entry.signature) (asked_in query.entry store.old)
        (session_in names.old store.old) session (given_in (answer_in result) names.new store.new) }
    ensures lent { IsLent store.old store.new }
{
    // The test is lent each buffer by itself: it writes the marks alone.
    let words = &mut *store.words;
    let bindings = &mut *store.bindings;
    let links = &mut *store.links;
    let marks = &mut *store.marks;
    let stack = &mut *store.stack;
    let frames = &mut *store.frames;
    let stored = StoredSession {
        names,
        words,
        bindings,
        counts: session,
    };
    if !is_ready(query, stored, links, marks, stack, frames) {
        return Err(Refusal::Storage);
    }
    prove_listed(query, names, store, session)
}
