// A goal before its search: 38, its compilation, 37, and its storing.
ghost use Rattle.std.specs.Prelude.{◌≡◌};
ghost use Rattle.resolution.specs.Session.{too_much};
ghost use Rattle.sessions.specs.Promises.{allowance_of};
ghost use Rattle.prover.specs.Preparing.{search_limits, PrepareAsked, Preparing};

use super::Query;
use attempts::SearchLimits;
use goals::WORDS;
use names::SourceTerms;
use patterns::VARIABLES;
use refusals::Refusal;
use sessions::{NameRow, SessionCounts};
use words::Limits;

// The greatest depth.
const DEPTH: u32 = 128;

// A goal that stands in the session's words: its reference, and the names, variables and words with it.
// Stays: with `SessionCounts` in it no line is shorter: `prepare` takes over the session's bindings, and each contract says that they are those.
#[derive(Clone, Copy)]
pub struct StoredGoal {
    pub node: u32,
    pub names: u32,
    pub variables: u32,
    pub words: u32,
}

// Does a query ask for more steps than allowed, or for too great a depth?
pub fn is_too_much(query: Query) -> bool
    ensures { result ≡ too_much query.entry.steps query.entry.depth (allowance_of query.entry.limits) }
{
    query.limits.capped().steps < query.steps || DEPTH < query.depth
}

// How many variables and words the limits allow a search.
// Stays: neither type is of this crate, and `attempts`, which has `SearchLimits`, knows no `Limits`, so that no `From` can stand here or there.
pub fn search_limits(limits: Limits) -> SearchLimits
    ensures { result ≡ search_limits limits }
{
    let capped = limits.capped();
    SearchLimits {
        variables: capped.variables,
        words: capped.words,
    }
}

// Compiles the goal of a query against the names of a session, and stores it there where the limits allow. Refused, nothing is written.
pub fn prepare(
    query: Query,
    names: &mut [NameRow],
    words: &mut [u32],
    session: SessionCounts,
) -> Result<StoredGoal, Refusal>
    requires { PrepareAsked query.goal.text.now query.limits query.signature.symbols.now query.signature.counts.symbols query.goal.rows.now
        query.goal.at names.old words.old session }
    ensures { Preparing query.entry.goal.text.now query.entry.limits query.entry.signature.symbols.now query.entry.signature.counts.symbols
        query.entry.goal.rows.now query.entry.goal.at names.old words.old session result names.new words.new }
{
    let mut variables = [[0u32; 4]; VARIABLES];
    let mut pattern = [0u32; WORDS];
    let n = session.names as usize;
    let source = SourceTerms {
        text: query.goal.text,
        rows: query.goal.rows,
        symbols: query.signature.symbols_in_use(),
    };
    let goal = goals::compile(
        source,
        query.goal.at,
        &names[..n],
        &mut variables,
        &mut pattern,
    )?;
    let total = session.variables + (goal.variables - session.names);
    let used = session.words + goal.words;
    if search_limits(query.limits).exceeds(total, used) {
        return Err(Refusal::OverLimit);
    }
    let node = goals::store(&variables, &pattern, goal, names, words, session);
    Ok(StoredGoal {
        node,
        names: goal.variables,
        variables: total,
        words: used,
    })
}
