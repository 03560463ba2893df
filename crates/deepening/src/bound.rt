// The search at one depth bound.
ghost use Rattle.search_machine.specs.Groups.{IsLent};
ghost use Rattle.deepening.specs.Bounds.{Leaving};
ghost use Rattle.deepening.specs.Groups.{AskingIn, BoundedIn, LeftIn};

use super::Question;
use super::clearing::clear_written;
use super::trees::write_tree;
use bindings::{InUse, undo};
use refusals::Refusal;
use search_machine::{Machine, Mode, Program, Store, run};

// What came of one depth bound that the limits allow.
// Stays: a bound without a proof is no error, and an `Option` would leave out the steps and the variables that it took.
// Stays: of two cases for `cut` and `left`, which settle a goal together, both would have these fields, and `leave` the test that `prove` makes of them.
#[derive(Clone, Copy)]
pub enum Came {
    // A proof: the number of its applications, steps left, and variables, bindings and words in use.
    Found {
        applications: u32,
        left: u32,
        in_use: InUse,
    },
    // None: steps left, whether a goal was cut off, and variables in use.
    Failed {
        left: u32,
        cut: bool,
        counter: u32,
    },
}

// The end of a bound: a proof's frames become its rows, and what else was written is cleared; without a proof all that was written is cleared, and
// refused, the bindings are undone too.
fn leave(store: &mut Store, m: Machine, question: Question, depth: u32) -> Result<Came, Refusal>
    requires { Leaving store.old.bindings.now m question.in_use.bound }
    ensures left { LeftIn store.old store.new m question depth result }
    ensures lent { IsLent store.old store.new }
{
    match m.mode {
        Mode::Proved => {
            write_tree(store.frames, m.frames, depth);
            clear_written(store, m.used, m.frames, m);
            Ok(Came::Found {
                applications: m.frames,
                left: m.steps,
                in_use: m.in_use(),
            })
        }
        Mode::Over => {
            clear_written(store, question.in_use.used, 0, m);
            Ok(Came::Failed {
                left: m.steps,
                cut: m.cut,
                counter: m.counter,
            })
        }
        Mode::Enter | Mode::Try | Mode::Fail | Mode::Refused => {
            undo(store.bindings, m.bound, question.in_use.bound);
            clear_written(store, question.in_use.used, 0, m);
            Err(Refusal::OverLimit)
        }
    }
}

// One depth bound.
pub fn at_bound(
    program: Program,
    store: &mut Store,
    question: Question,
    depth: u32,
) -> Result<Came, Refusal>
    requires { AskingIn program store.old question }
    ensures bounded { BoundedIn program.entry store.old store.new question depth result }
    ensures lent { IsLent store.old store.new }
{
    let counter = question.in_use.variables;
    let Some(steps) = question.steps.checked_sub(1) else {
        return Ok(Came::Failed {
            left: 0,
            cut: false,
            counter,
        });
    };
    let Some(below) = depth.checked_sub(1) else {
        return Ok(Came::Failed {
            left: steps,
            cut: true,
            counter,
        });
    };
    let first = Machine::at_start(question.goal, below, steps, question.in_use);
    let m = run(program, store, first);
    leave(store, m, question, depth)
}
