// The search at one depth bound (document 01, "Search"), as a machine over lent storage: leftmost goal first, rules in source order. Its
// recursion is a stack of frames, one for each rule that is entered; specs/State says what they denote, and specs/Promises that a step
// keeps what the whole search comes to.
//
// All functions here serve the crates above: they ask for a signature and a session in form. What is ever written is counted, so that it
// can be cleared.
#![tactic(auto)]

mod candidates; // the rules that a goal passes over
mod frames; // one row for each rule that is entered
mod moves; // the machine's next states
mod stored; // what an attempt reads in a rule's row

ghost use Rattle.std.specs.Prelude.{◌≡◌, ◌<◌, true, false, length};
ghost use Rattle.search_machine.specs.Promises.{Moved, Seen, Known, Choice, Live, Stopped};
ghost use Rattle.search_machine.specs.State.{frame_at};
ghost use Rattle.search_machine.specs.Groups.{allowed_in, ReadyIn, SteppedIn, ReturnedIn, SearchedIn, IsLent};
ghost use Rattle.search_machine.specs.declared.Mode.TheVariants.{Try};

use attempts::{SearchLimits, Tried};
use bindings::undo;
use candidates::next_candidate;
pub use frames::Frame;
use rules::RuleRow;
use rules::columns::PREMISES;
use stored::{premise, try_stored};

// What a search reads, the rules of a signature and the words of their patterns, and what it may use: variables of the session and words, and frames.
// The number of frames is named only in contracts: so many rows are lent or more, and the steps left do not outnumber those that are free; it fits a word.
// Stays: tried a `ghost` clause for `frames`: proved, but on seven functions with six picks; tried to lend so many rows: the check does not cover it.
#[derive(Clone, Copy)]
pub struct Program<'a> {
    pub rules: &'a [RuleRow],
    pub pattern: &'a [u32],
    pub limits: SearchLimits,
    pub frames: u32,
}

// What a search writes: the session's words and bindings, the scratch of unification, and a row for each rule that is entered.
// Stays: each function promises that the same buffers are lent afterwards (`IsLent`); an invariant tells of one value, and not of the one before.
// Stays: tried with a `Workspace` in it: made of buffers that C lends apart, its lifetime is an intersection, which the check does not cover.
#[derive(Drop)]
pub struct Store<'a> {
    pub words: &'a mut [u32],
    pub bindings: &'a mut [[u32; 2]],
    pub links: &'a mut [[u32; 2]],
    pub marks: &'a mut [[u32; 2]],
    pub stack: &'a mut [[u32; 3]],
    pub frames: &'a mut [[u32; 8]],
}

impl Store<'_> {
    // The frame at a number.
    #[tactic(auto, unfolding(crate::specs::State::frame_at))]
    fn frame(&self, at: u32) -> Frame
        requires { at < length self.now.frames.now }
        ensures { result ≡ frame_at self.now.frames.now at }
    {
        Frame::from(self.frames[at as usize])
    }
}

// What the machine is about to do.
// Stays: refused is a mode and no `Err`: `deepening` then needs the state, to undo what was bound and to clear what was written.
#[derive(Clone, Copy)]
pub enum Mode {
    // To enter a place: the next premise of an open application, or its end.
    Enter,
    // To try a rule with the goal.
    Try,
    // To go back to the newest application and try its next rule.
    Fail,
    // It has stopped: with a proof, with nothing left to try, or refused by the limits.
    Proved,
    Over,
    Refused,
}

impl Mode {
    // Whether the machine goes on.
    fn is_live(self) -> bool
        ensures live { result ≡ true → Live self }
        ensures stopped { result ≡ false → Stopped self }
    {
        matches!(self, Mode::Enter | Mode::Try | Mode::Fail)
    }
}

// The machine's state beside its storage.
// Stays: `cut` tells of the whole search; no field has its meaning from it alone, so that an option would hold nothing.
// Stays: with an `InUse`, `in_use` would go, but `at_rule` and `at_retry` would have an update in an update, and 162 lines of specs a field more.
// Stays: with a `Frame` in it the five moves that set a field of one would each have two struct updates, one inside the other.
#[derive(Clone, Copy)]
pub struct Machine {
    pub mode: Mode,
    // The place: the application, counted from 1, and the number of its premise; application 0 is the top.
    // Stays: so the number goes into a frame's row as it is; an option would go in as one more, and `From` could not ask that this fits a word.
    pub parent: u32,
    pub place: u32,
    // How many applications there are.
    pub frames: u32,
    // Steps left, and whether a goal was cut off.
    pub steps: u32,
    pub cut: bool,
    // Variables, bindings and words in use.
    pub counter: u32,
    pub bound: u32,
    pub used: u32,
    // The goal that is tried, the depth that its premises get, and the rule to try next.
    pub goal: u32,
    pub depth: u32,
    pub rule: u32,
    // Words from this one on, and rows of frames from this one on, were not written.
    pub top: u32,
    pub high: u32,
}

// With no step left the place fails; otherwise one is used.
fn enter(program: Program, store: &Store, m: Machine) -> Machine
    requires { Seen (allowed_in program) program.rules.now store.now.frames.now m }
    ensures { Moved (allowed_in program.entry) program.entry.rules.now store.now.frames.now m result }
{
    let Some(steps) = m.steps.checked_sub(1) else {
        return m.at_fail(0, m.cut);
    };
    let Some(at) = m.parent.checked_sub(1) else {
        return m.at_stop(Mode::Proved, steps);
    };
    let x = store.frame(at);
    let row = &program.rules[x.rule as usize];
    if m.place == row[PREMISES] {
        return m.at_place(x.parent, x.place + 1, steps);
    }
    let Some(depth) = x.depth.checked_sub(1) else {
        return m.at_fail(steps, true);
    };
    let goal = premise(row, x, m.place);
    m.at_goal(goal, depth, steps)
}

// One attempt with the rule that was chosen for the goal.
fn attempt(program: Program, store: &mut Store, m: Machine) -> Machine
    requires ready { ReadyIn program store.old m }
    requires choice { Choice (allowed_in program) program.rules.now m }
    ensures stepped { SteppedIn program.entry store.old store.new m result }
    ensures lent { IsLent store.old store.new }
{
    match try_stored(program, store, m) {
        Err(_) => m.at_stop(Mode::Refused, m.steps),
        Ok(Tried::Missed { counter }) => m.at_rule(m.rule + 1, counter, m.top),
        Ok(Tried::Entered { in_use }) => {
            let row: [u32; 8] = m.frame().into();
            store.frames[m.frames as usize] = row;
            let high = m.high.max(m.frames + 1);
            m.at_body(in_use, high)
        }
    }
}

// The next rule for the goal: those before it clash with it.
fn next_rule(program: Program, store: &mut Store, m: Machine) -> Machine
    requires ready { ReadyIn program store.old m }
    requires mode { m.mode ≡ Try }
    ensures stepped { SteppedIn program.entry store.old store.new m result }
    ensures lent { IsLent store.old store.new }
{
    let n = next_candidate(program, store, m);
    match n.mode {
        Mode::Try => attempt(program, store, n),
        _ => n,
    }
}

// Back to the newest application's goal, for its next rule.
fn back(program: Program, store: &mut Store, m: Machine) -> Machine
    requires { Known (allowed_in program) store.old.frames.now store.old.bindings.now m }
    ensures returned { ReturnedIn (allowed_in program.entry) store.old store.new m result }
    ensures lent { IsLent store.old store.new }
{
    let Some(last) = m.frames.checked_sub(1) else {
        return m.at_stop(Mode::Over, m.steps);
    };
    let x = store.frame(last);
    undo(store.bindings, m.bound, x.bound);
    m.at_retry(x)
}

// One step of the machine.
// Stays: the program is read, the store written, and the state goes by value; as one struct, each step would promise besides that the program stands.
// Stays: `ReadyIn` tells of program, store and state together, so that only an invariant of that one struct could have it.
fn step(program: Program, store: &mut Store, m: Machine) -> Machine
    requires ready { ReadyIn program store.old m }
    requires live { Live m.mode }
    ensures stepped { SteppedIn program.entry store.old store.new m result }
    ensures lent { IsLent store.old store.new }
{
    // Stays: here and in `next_rule` a `match` on the own enum names each mode's step once; a trait or closures would name them again elsewhere.
    match m.mode {
        Mode::Enter => enter(program, store, m),
        Mode::Try => next_rule(program, store, m),
        Mode::Fail => back(program, store, m),
        Mode::Proved | Mode::Over | Mode::Refused => m,
    }
}

// The search: from a state to one that has stopped.
pub fn run(program: Program, store: &mut Store, first: Machine) -> Machine
    requires { ReadyIn program store.old first }
    ensures searched { SearchedIn program.entry store.old store.new first result }
    ensures lent { IsLent store.old store.new }
{
    let mut m = first;
    while m.mode.is_live() {
        m = step(program, store, m);
    }
    m
}
