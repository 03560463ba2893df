// The rules that a goal passes over by arithmetic: those whose conclusion clashes with it by heads. They number their variables and count
// their words as if they were tried, and nothing is copied.
ghost use Rattle.std.specs.Prelude.{◌≡◌, false, IfSome};
ghost use Rattle.arena.specs.Copies.{term_room};
ghost use Rattle.attempts.specs.Clashes.{Clashes};
ghost use Rattle.search_machine.specs.Groups.{allowed_in};
ghost use Rattle.search_machine.specs.Choosing.{Goal, HeadsNode, Readable, Differs, Judged, Choosing, Chosen};

use super::{Machine, Mode, Program, Store};
use arena::{PATTERN_ROOM, Terms};
use attempts::{clashes, goal_node};
use bindings::StoredBindings;
use rules::columns::{CONCLUSION, CONCLUSION_WORDS, MET, PREMISE_WORDS};

// The header that the bindings lead to from the goal; none where they lead to a variable.
fn goal_header(terms: Terms, held: StoredBindings, goal: u32) -> Option<u32>
    requires room { terms.room ≡ term_room }
    requires goal { Goal terms.words.now held.rows.now terms.variables terms.used held.bound goal }
    ensures { IfSome result (HeadsNode terms.entry.words.now held.entry.rows.now terms.entry.variables terms.entry.used held.entry.bound goal) }
{
    let node = goal_node(terms, held, goal)?;
    Some(terms.header(node))
}

// Whether a conclusion may unify with a goal that leads to this header: a node with another one cannot.
fn may_unify(pattern: &[u32], header: Option<u32>, conclusion: u32) -> bool
    requires { Readable pattern.now conclusion }
    ensures { result ≡ false → Differs pattern.now header conclusion }
{
    match (header, conclusion.checked_sub(PATTERN_ROOM)) {
        (Some(header), Some(address)) => pattern[address as usize] == header,
        _ => true,
    }
}

// Whether the rule of a conclusion has to be tried: it does not clash with the goal, by its head or by those of its arguments.
fn is_candidate(
    pattern: &[u32],
    terms: Terms,
    held: StoredBindings,
    goal: u32,
    header: Option<u32>,
    conclusion: u32,
) -> bool
    requires room { terms.room ≡ term_room }
    requires judged { Judged pattern.now terms.words.now held.rows.now terms.variables terms.used held.bound goal header conclusion }
    ensures { result ≡ false → Clashes term_room pattern.now terms.entry.words.now held.entry.rows.now held.entry.bound goal conclusion }
{
    may_unify(pattern, header, conclusion) && !clashes(pattern, terms, held, goal, conclusion)
}

// The state at the next rule that has to be tried; at the end of the rules it fails, and at the limits it is refused.
pub fn next_candidate(program: Program, store: &Store, m: Machine) -> Machine
    requires { Choosing (allowed_in program) program.pattern.now program.rules.now store.now.words.now store.now.bindings.now m }
    ensures { Chosen (allowed_in program.entry) program.entry.pattern.now program.entry.rules.now store.now.words.now store.now.bindings.now m result }
{
    let in_use = m.in_use();
    let terms = in_use.terms(store.words);
    let held = in_use.bindings(store.bindings);
    let header = goal_header(terms, held, m.goal);
    let rules = program.rules.len() as u32;
    let mut counter = m.counter;
    for rule in m.rule..rules {
        let row = &program.rules[rule as usize];
        let conclusion = row[CONCLUSION];
        let head = m.used + row[CONCLUSION_WORDS];
        if is_candidate(program.pattern, terms, held, m.goal, header, conclusion) {
            let top = m.top.max(head + row[PREMISE_WORDS]);
            return m.at_rule(rule, counter, top);
        }
        let met = counter + row[MET];
        if program.limits.exceeds(met, head) {
            return m
                .at_rule(rule, counter, m.top)
                .at_stop(Mode::Refused, m.steps);
        }
        counter = met;
    }
    m.at_rule(rules, counter, m.top).at_fail(m.steps, m.cut)
}
