// What is asked of each goal: its numbers stand behind the text, in a line `STEPS DEPTH STEP-LIMIT VARIABLES WORDS`.
ghost use Rattle.std.specs.Prelude.{◌≤◌};

use super::lent::{STEPS, VARIABLES, WORDS};
use listing::recorded;
use words::Limits;

// What is asked of a goal: how many steps and what depth its search may take, and the limits. The line of the next one stands at a place.
#[derive(Clone, Copy)]
pub struct Ask {
    pub steps: u32,
    pub depth: u32,
    pub limits: Limits,
    pub next: usize,
}

// The limits for which exactly enough is lent.
pub const LARGEST: Ask = Ask {
    steps: STEPS as u32,
    depth: 4,
    limits: Limits {
        text: 0,
        nodes: 0,
        steps: STEPS as u32,
        variables: VARIABLES as u32,
        words: WORDS as u32,
    },
    next: 0,
};

// What stands behind a text that ends at a place, and its line end.
pub fn behind<'a>(list: &'a [u8], end: usize) -> &'a [u8] {
    list.get(end.saturating_add(1)..).unwrap_or(&[])
}

// What is asked in the line at a place.
pub fn read(list: &[u8], at: usize) -> Ask {
    let steps = recorded::read_decimal(list, at.min(recorded::end(list)));
    let depth = recorded::read_decimal(list, steps.next);
    let step_limit = recorded::read_decimal(list, depth.next);
    let variables = recorded::read_decimal(list, step_limit.next);
    let words = recorded::read_decimal(list, variables.next);
    Ask {
        steps: steps.value,
        depth: depth.value,
        limits: Limits {
            steps: step_limit.value,
            variables: variables.value,
            words: words.value,
            ..Limits::default()
        },
        next: words.next,
    }
}
