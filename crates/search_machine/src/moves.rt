// The machine's next states.
ghost use Rattle.std.specs.Prelude.{◌≡◌, ◌<◌};
ghost use Rattle.search_machine.specs.Moves.{to_place, to_fail, to_stop, to_goal, to_rule, to_body, to_retry, to_start, in_use_of, frame_for, state_for};

use super::frames::Frame;
use super::{Machine, Mode};
use attempts::{SearchLimits, SearchState};
use bindings::InUse;

impl Machine {
    // The first state: a goal, from the first rule on; nothing was written.
    pub fn at_start(goal: u32, depth: u32, steps: u32, in_use: InUse) -> Machine
        ensures { result ≡ to_start goal depth steps in_use }
    {
        Machine {
            mode: Mode::Try,
            parent: 0,
            place: 0,
            frames: 0,
            steps,
            cut: false,
            counter: in_use.variables,
            bound: in_use.bound,
            used: in_use.used,
            goal,
            depth,
            rule: 0,
            top: in_use.used,
            high: 0,
        }
    }

    // On at a place.
    pub fn at_place(self, parent: u32, place: u32, steps: u32) -> Machine
        ensures { result ≡ to_place self parent place steps }
    {
        Machine {
            mode: Mode::Enter,
            parent,
            place,
            steps,
            ..self
        }
    }

    // The place failed.
    pub fn at_fail(self, steps: u32, cut: bool) -> Machine
        ensures { result ≡ to_fail self steps cut }
    {
        Machine {
            mode: Mode::Fail,
            steps,
            cut,
            ..self
        }
    }

    // Stopped.
    pub fn at_stop(self, mode: Mode, steps: u32) -> Machine
        ensures { result ≡ to_stop self mode steps }
    {
        Machine {
            mode,
            steps,
            ..self
        }
    }

    // On with a goal, from the first rule on.
    pub fn at_goal(self, goal: u32, depth: u32, steps: u32) -> Machine
        ensures { result ≡ to_goal self goal depth steps }
    {
        Machine {
            mode: Mode::Try,
            steps,
            goal,
            depth,
            rule: 0,
            ..self
        }
    }

    // The same goal with a rule, from a counter on; words were written below a number.
    // Stays: it sets other fields than `at_place`, so one function of both would take them all and say at no call which move it is.
    pub fn at_rule(self, rule: u32, counter: u32, top: u32) -> Machine
        ensures { result ≡ to_rule self rule counter top }
    {
        Machine {
            mode: Mode::Try,
            counter,
            rule,
            top,
            ..self
        }
    }

    // Into an application: its premises are next; rows were written below a number.
    pub fn at_body(self, in_use: InUse, high: u32) -> Machine
        requires { self.frames < 4294967295 }
        ensures { result ≡ to_body self in_use high }
    {
        Machine {
            mode: Mode::Enter,
            parent: self.frames + 1,
            place: 0,
            frames: self.frames + 1,
            counter: in_use.variables,
            bound: in_use.bound,
            used: in_use.used,
            high,
            ..self
        }
    }

    // Back to the goal of an application, with the rule behind its own.
    pub fn at_retry(self, x: Frame) -> Machine
        requires { (x.rule < 1024) × (0 < self.frames) }
        ensures { result ≡ to_retry self x }
    {
        Machine {
            mode: Mode::Try,
            parent: x.parent,
            place: x.place,
            frames: self.frames - 1,
            bound: x.bound,
            used: x.used,
            goal: x.goal,
            depth: x.depth,
            rule: x.rule + 1,
            ..self
        }
    }

    // What is in use.
    // Stays: a `From` would write the same fields out, with the same promise; the moves are methods, and so is `state`, which takes the limits too.
    pub fn in_use(self) -> InUse
        ensures { result ≡ in_use_of self }
    {
        let Machine {
            counter,
            bound,
            used,
            ..
        } = self;
        InUse {
            variables: counter,
            bound,
            used,
        }
    }

    // Where an attempt with the next rule starts.
    pub fn state(self, limits: SearchLimits) -> SearchState
        ensures { result ≡ state_for self limits }
    {
        SearchState {
            limits,
            in_use: self.in_use(),
            goal: self.goal,
        }
    }

    // The frame of an application that is entered.
    // Stays: a `From` would write the same fields out, with the same promise; the moves are methods, and so is `state`, which takes the limits too.
    pub fn frame(self) -> Frame
        ensures { result ≡ frame_for self }
    {
        Frame {
            rule: self.rule,
            goal: self.goal,
            depth: self.depth,
            parent: self.parent,
            place: self.place,
            counter: self.counter,
            bound: self.bound,
            used: self.used,
        }
    }
}
