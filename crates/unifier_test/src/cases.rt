// The cases: each builds its storage, runs one call, and writes a line.
ghost use Rattle.std.specs.Prelude.{◌<◌, length};

use arena::{TERM_ROOM, Terms};
use bindings::{InUse, StoredBindings};
use samples::build::{Built, Tower};
use samples::rows::bind_chain;
use samples::unification::{Fault, Remains};
use samples::{build, report, unification};
use unifier::Workspace;

// The variables in use in most cases.
const VARIABLES: u32 = 64;

// Words for the two constants, 105,000 nodes with one argument and two with two.
const WORDS: usize = 210008;

// A row for each reference.
const REFERENCES: usize = TERM_ROOM as usize + WORDS;

// Two towers, one behind the other, and the two references in question. A pair may be built on each of these: of variable 0 and the left one, and of a
// constant and the right one.
// Stays: `paired` says what is built besides; no other field has its meaning from it, so that an option would hold nothing.
#[derive(Clone, Copy)]
pub struct Towers {
    pub lower: Tower,
    pub upper: Tower,
    pub left: u32,
    pub right: u32,
    pub paired: bool,
}

// What of storage is in use, and two references.
#[derive(Clone, Copy)]
struct Case {
    in_use: InUse,
    left: u32,
    right: u32,
}

// Builds the constants, the towers, and the pairs where they are wanted; one binding stands already, of variable 60 to a constant. None where there is no
// room, or a node has too many arguments.
fn put_case(words: &mut [u32], bindings: &mut [[u32; 2]], towers: Towers) -> Option<Case> {
    let Towers {
        lower,
        upper,
        left,
        right,
        paired,
    } = towers;
    build::put_constants(words);
    let [_, Built { next: top, .. }] = build::put_two(words, TERM_ROOM, 2, lower, upper)?;
    slices::put(bindings, 60, [TERM_ROOM + 1, 0]);
    slices::put(bindings, 0, [0, 60]);
    let in_use = InUse {
        variables: VARIABLES,
        bound: 1,
        used: top,
    };
    if paired {
        let next = build::put_node(words, top, &[0, left])?;
        let used = build::put_node(words, next, &[TERM_ROOM, right])?;
        return Some(Case {
            in_use: InUse { used, ..in_use },
            left: TERM_ROOM.saturating_add(top),
            right: TERM_ROOM.saturating_add(next),
        });
    }
    Some(Case {
        in_use,
        left,
        right,
    })
}

// Writes the line of a case that has no room.
fn report_room(name: &[u8]) {
    report::text(name);
    report::text(b": no room\n");
}

// Writes the line of a unification.
fn report_unify(remains: Remains, in_use: InUse, found: Result<Option<u32>, Fault>) {
    match found {
        Err(fault) => {
            report::fault(fault);
        }
        Ok(None) => {
            report::text(b": do not unify");
            remains.compare();
        }
        Ok(Some(bound)) => {
            report::text(b": unify");
            unification::finish(remains, InUse { bound, ..in_use }, in_use.bound);
        }
    }
    report::text(b"\n");
}

// Unifies the two references.
// Stays: a function that makes the scratch moves it (tried: out of stack); a closure that is lent it would take it apart for `solve` and for `Remains`.
pub fn unify(name: &[u8], towers: Towers) {
    let mut words = [0u32; WORDS];
    let mut bindings = [[0u32; 2]; VARIABLES as usize];
    let Some(case) = put_case(&mut words, &mut bindings, towers) else {
        report_room(name);
        return;
    };
    let before = bindings;
    let mut links = [[0u32; 2]; REFERENCES];
    let mut marks = [[0u32; 2]; REFERENCES];
    let mut stack = [[0u32; 3]; WORDS];
    let found = unification::solve(
        case.in_use.terms(&words),
        &mut bindings,
        Workspace {
            links: &mut links,
            marks: &mut marks,
            stack: &mut stack,
        },
        case.in_use.bound,
        case.left,
        case.right,
    );
    report::text(name);
    let remains = Remains {
        words: &words,
        before: &before,
        bindings: &mut bindings,
        marks: &mut marks,
    };
    report_unify(remains, case.in_use, found);
}

// Writes the line of a question that has only yes and no for an answer.
fn report_answer(found: Result<bool, Fault>, yes: &[u8], no: &[u8]) {
    match found {
        Err(fault) => {
            report::fault(fault);
            report::text(b"\n");
        }
        Ok(true) => {
            report::text(yes);
        }
        Ok(false) => {
            report::text(no);
        }
    }
}

// Asks whether a variable occurs.
pub fn occurs(name: &[u8], towers: Towers) {
    let mut words = [0u32; WORDS];
    let mut bindings = [[0u32; 2]; VARIABLES as usize];
    let Some(case) = put_case(&mut words, &mut bindings, towers) else {
        report_room(name);
        return;
    };
    let mut marks = [[0u32; 2]; REFERENCES];
    let terms = case.in_use.terms(&words);
    let held = StoredBindings {
        rows: &bindings,
        bound: case.in_use.bound,
    };
    let found = unification::ask(terms, held, &mut marks, case.left, case.right);
    report::text(name);
    report_answer(found, b": occurs\n", b": does not occur\n");
}

// The most variables in the checks of bindings.
pub const MANY: u32 = 50000;

// Checks bindings, a row for each variable, over a node on variable 0, at the address 0.
fn check(name: &[u8], held: StoredBindings)
    // The count of rows is a word.
    requires { length held.rows.now < 4294967296 }
{
    let words = [build::UNARY, 0];
    let mut marks = [[0u32; 2]; TERM_ROOM as usize + 2];
    let terms = Terms {
        words: &words,
        room: TERM_ROOM,
        variables: held.rows.len() as u32,
        used: 2,
    };
    let found = unification::check(terms, held, &mut marks);
    report::text(name);
    report_answer(found, b": in form\n", b": not in form\n");
}

// Checks three rows.
pub fn check_three(name: &[u8], rows: [[u32; 2]; 3], bound: u32) {
    check(name, StoredBindings { rows: &rows, bound });
}

// Checks variables that are each bound to the next, and a last row.
pub fn check_chain(name: &[u8], last: [u32; 2], bound: u32) {
    let mut rows = [[0u32; 2]; MANY as usize];
    bind_chain(&mut rows, last);
    check(name, StoredBindings { rows: &rows, bound });
}
