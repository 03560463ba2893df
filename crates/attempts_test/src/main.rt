// Runs `try_rule` on a goal of 100,000 levels and on short ones, with just enough room and with less, and writes a line for each case.
#![tactic(auto)]

use arena::TERM_ROOM;
use attempts::{SearchLimits, SearchState, Tried};
use bindings::InUse;
use refusals::Refusal;
use samples::build::{MOST, Tower};
use samples::unification::{Fault, Remains};
use samples::{build, report, unification};
use unifier::Workspace;

mod attempt; // one attempt

// The limit on variables in most cases.
const VARIABLES: u32 = 64;

// The levels of the tower.
const LEVELS: u32 = 100000;

// More words than a case needs, and a row for each reference.
const WORDS: usize = 200100;

const REFERENCES: usize = TERM_ROOM as usize + WORDS;

// Two constants and a tower of 100,000 nodes, and variable 0 as the goal, bound to the tower's node of the height given; two variables are in use, and
// the limit leaves room for `spare` words. None where the tower is lower than that, or the numbers are too large.
fn put_goal(
    words: &mut [u32],
    bindings: &mut [[u32; 2]],
    most: u32,
    height: u32,
    spare: u32,
) -> Option<SearchState> {
    build::put_constants(words);
    let tower = Tower {
        height: LEVELS,
        leaf: TERM_ROOM,
        arity: 1,
    };
    let used = build::try_put_tower(words, TERM_ROOM, 2, tower)?.next;
    if LEVELS < height || 100 < spare || MOST < used {
        return None;
    }
    slices::put(bindings, 0, [TERM_ROOM + 2 * height + 1, 0]);
    Some(SearchState {
        limits: SearchLimits {
            variables: most,
            words: used + spare,
        },
        in_use: InUse {
            variables: 2,
            bound: 1,
            used,
        },
        goal: 0,
    })
}

// Writes what a premise's reference becomes.
fn report_premise(reference: u32, state: SearchState) {
    match attempt::premise(reference, state) {
        Some(moved) => {
            report::decimal(moved);
        }
        None => {
            report::text(b"none");
        }
    }
}

// Writes the references of the premises.
fn report_premises(state: SearchState) {
    let [first, second] = attempt::PREMISES;
    report::text(b", premises ");
    report_premise(first, state);
    report::text(b" and ");
    report_premise(second, state);
}

// Writes the line of an attempt.
fn report_attempt(
    remains: Remains,
    state: SearchState,
    came: Result<Result<Tried, Refusal>, Fault>,
) {
    match came {
        Err(fault) => {
            report::fault(fault);
        }
        Ok(Err(_)) => {
            report::text(b": exceeded");
            remains.compare();
        }
        Ok(Ok(Tried::Missed { counter })) => {
            report::text(b": missed, counter ");
            report::decimal(counter);
            remains.compare();
        }
        Ok(Ok(Tried::Entered { in_use })) => {
            report::text(b": entered, counter ");
            report::decimal(in_use.variables);
            report::text(b", words ");
            report::decimal(in_use.used);
            report_premises(state);
            unification::finish(remains, in_use, state.in_use.bound);
        }
    }
}

// Tries the rule.
// Stays: a function that makes the scratch moves it (tried: out of stack); a closure that is lent it would take it apart for `attempt` and for `Remains`.
fn case(name: &[u8], most: u32, height: u32, spare: u32) {
    let mut words = [0u32; WORDS];
    let mut bindings = [[0u32; 2]; VARIABLES as usize];
    let Some(state) = put_goal(&mut words, &mut bindings, most, height, spare) else {
        report::text(name);
        report::text(b": no goal\n");
        return;
    };
    let before = bindings;
    let mut links = [[0u32; 2]; REFERENCES];
    let mut marks = [[0u32; 2]; REFERENCES];
    let mut stack = [[0u32; 3]; WORDS];
    let came = attempt::attempt(
        &mut words,
        &mut bindings,
        Workspace {
            links: &mut links,
            marks: &mut marks,
            stack: &mut stack,
        },
        state,
    );
    report::text(name);
    let remains = Remains {
        words: &words,
        before: &before,
        bindings: &mut bindings,
        marks: &mut marks,
    };
    report_attempt(remains, state, came);
    report::text(b"\n");
}

// Attempts with a rule that takes 1 variable and 8 words for its conclusion, and 1 and 5 more for its premises; 2 variables are in use.
fn main() {
    case(b"a rule and a tower of 100,000", VARIABLES, LEVELS, 13);
    case(b"room for one word less", VARIABLES, LEVELS, 12);
    case(b"room for the conclusion", VARIABLES, LEVELS, 8);
    case(
        b"room for one word less than the conclusion",
        VARIABLES,
        LEVELS,
        7,
    );
    case(b"room for 4 variables", 4, LEVELS, 13);
    case(b"room for 3 variables", 3, LEVELS, 13);
    case(b"room for 2 variables", 2, LEVELS, 13);
    case(b"a rule and a tower of 4", VARIABLES, 4, 13);
    case(b"a rule and a tower of 3", VARIABLES, 3, 13);
    case(b"room for the conclusion, and a tower of 3", 3, 3, 8);
}
