// The search for a stored goal, and what it leaves.
ghost use Rattle.std.specs.Prelude.{◌≡◌};
ghost use Rattle.load_storage.specs.Storage.{cleared_from};
ghost use Rattle.sessions.specs.Answers.{answer_in};
ghost use Rattle.search_machine.specs.Groups.{IsLent};
ghost use Rattle.prover.specs.Searching.{counts_then, SearchAskedIn, SearchLeftIn};

use super::Query;
use super::clearing::clear_session;
use super::preparing::StoredGoal;
use bindings::InUse;
use deepening::{Answer as Deepened, Question};
use refusals::Refusal;
use search_machine::{Program, Store};
use sessions::{NameRow, SessionCounts, Verdict};

// Searches for a goal that stands in the session. Without a proof its words are cleared; refused by the limits, so are its names.
pub fn search_goal(
    program: Program,
    names: &mut [NameRow],
    store: &mut Store,
    goal: StoredGoal,
    session: SessionCounts,
    query: Query,
) -> Result<Verdict, Refusal>
    requires { SearchAskedIn program names.old store.old goal session query.steps query.depth }
    ensures left { SearchLeftIn program.entry names.old names.new store.old store.new goal session query.entry.steps query.entry.depth
        (answer_in result) }
    ensures lent { IsLent store.old store.new }
{
    let question = Question {
        goal: goal.node,
        steps: query.steps,
        in_use: InUse {
            variables: goal.variables,
            bound: session.bound,
            used: goal.words,
        },
    };
    match deepening::prove(program, store, question, query.depth) {
        Err(refusal) => {
            clear_session(names, store.words, session);
            Err(refusal)
        }
        Ok(
            Deepened::Proved {
                applications,
                steps,
                in_use,
            },
        ) => Ok(Verdict::Proved {
            steps,
            nodes: applications,
            counts: SessionCounts {
                names: goal.names,
                variables: in_use.variables,
                bound: in_use.bound,
                words: in_use.used,
            },
        }),
        Ok(Deepened::Nothing { steps, counter }) => Ok(Verdict::Nothing {
            steps,
            counts: take_back(store.words, session, goal, counter),
        }),
        Ok(Deepened::Undecided { steps, counter }) => Ok(Verdict::Undecided {
            steps,
            counts: take_back(store.words, session, goal, counter),
        }),
    }
}

// After a search without a proof: clears the goal's words, and answers the counts, the goal's names and the variables then, and else those before it.
fn take_back(
    words: &mut [u32],
    session: SessionCounts,
    goal: StoredGoal,
    variables: u32,
) -> SessionCounts
    ensures counts { result ≡ counts_then session goal variables }
    ensures cleared { words.new ≡ cleared_from 0 session.words words.old }
{
    slices::clear_from(words, session.words as usize, 0);
    SessionCounts {
        names: goal.names,
        variables,
        ..session
    }
}
