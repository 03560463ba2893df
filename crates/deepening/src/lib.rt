// The search at the depth bounds 4, 8, 16, … up to the largest depth (document 01, "Search"). Each bound starts from the session at entry
// with all the steps; the counter of variables alone goes on. A proof's frames become the rows of its tree.
//
// What is lent comes with zero past what is in use, and goes back so: only what was written is cleared. The functions serve the crates
// above, which ask for a signature and a session in form.
#![tactic(auto)]

mod bound; // one depth bound
mod clearing; // what was written is cleared
mod trees; // the proof that the frames are

ghost use Rattle.std.specs.Prelude.{◌≡◌, ◌≤◌};
ghost use Rattle.search_machine.specs.Groups.{IsLent};
ghost use Rattle.deepening.specs.Bounds.{settled};
ghost use Rattle.deepening.specs.Groups.{AskingIn, DeepenedIn};

use bindings::InUse;
use bound::{Came, at_bound};
use refusals::Refusal;
use search_machine::{Program, Store};

// A goal that is asked: its reference, the steps that the search may use, and what of the session is in use.
#[derive(Clone, Copy)]
pub struct Question {
    pub goal: u32,
    pub steps: u32,
    pub in_use: InUse,
}

// The answer to a goal that the limits allow.
// Stays: no case is an error, each has its counts, and document 01 has these three verdicts.
// Stays: `sessions::Verdict` has these cases too; one enum of both would be generic in what is counted, and `search_goal` would match all three still.
#[derive(Clone, Copy)]
pub enum Answer {
    // Proved: the number of the proof's applications, steps used, and variables, bindings and words in use.
    Proved {
        applications: u32,
        steps: u32,
        in_use: InUse,
    },
    // No proof, or undecided: steps used, and variables in use.
    Nothing {
        steps: u32,
        counter: u32,
    },
    Undecided {
        steps: u32,
        counter: u32,
    },
}

// Whether a failure settles the goal: steps are left and nothing was cut off.
fn is_settled(left: u32, cut: bool) -> bool
    ensures { result ≡ settled left cut }
{
    left != 0 && !cut
}

// The bounds in turn. With a proof the first rows are its tree's, without one every buffer is as it was.
pub fn prove(
    program: Program,
    store: &mut Store,
    question: Question,
    largest: u32,
) -> Result<Answer, Refusal>
    requires asking { AskingIn program store.old question }
    requires depth { largest ≤ 128 }
    ensures deepened { DeepenedIn program.entry store.old store.new question largest result }
    ensures lent { IsLent store.old store.new }
{
    let mut depth = 4;
    let mut taken = 0;
    let mut met = question.in_use.variables;
    while depth <= largest {
        let in_use = InUse {
            variables: met,
            ..question.in_use
        };
        let asked = Question { in_use, ..question };
        let came = at_bound(program, store, asked, depth)?;
        match came {
            Came::Found {
                applications,
                left,
                in_use,
            } => {
                return Ok(Answer::Proved {
                    applications,
                    steps: question.steps - left,
                    in_use,
                });
            }
            Came::Failed { left, cut, counter } => {
                taken = question.steps - left;
                if is_settled(left, cut) {
                    return Ok(Answer::Nothing {
                        steps: taken,
                        counter,
                    });
                }
                met = counter;
                depth += depth;
            }
        }
    }
    Ok(Answer::Undecided {
        steps: taken,
        counter: met,
    })
}
