// Sessions: what one is stored in, what `open` and `prove` promise, and demand 3 over calls of them. The definitions are in
// specs/, the theorems there and in proofs/; here are the types that the contracts speak of, and no function.
#![tactic(auto)]

// A name of a session: kind, start, length, sort, variable.
pub type NameRow = [u32; 5];

// The columns of a name's row that have its start and its variable.
pub const NAME_START: usize = 1;

pub const NAME_VARIABLE: usize = 4;

// How much of a session's storage is in use: names, variables made, bindings and words.
#[derive(Clone, Copy)]
pub struct SessionCounts {
    pub names: u32,
    pub variables: u32,
    pub bound: u32,
    pub words: u32,
}

// A session in storage: the rows of its names, its words, its bindings with their trail, and how much of each is in use.
// Stays: C lends whole tables and counts of any size, so parts in use can be lent only behind `check_session`, which tests that the counts fit.
#[derive(Clone, Copy)]
pub struct StoredSession<'a> {
    pub names: &'a [NameRow],
    pub words: &'a [u32],
    pub bindings: &'a [[u32; 2]],
    pub counts: SessionCounts,
}

// The verdict on a goal that is not refused, with the steps used in the last bound and the counts then, and for a proof the number of its
// nodes. After a refusal the counts are those at entry.
// Stays: no case is an error: each is an answer to the goal.
// Stays: with `steps`, `counts` beside an enum of the cases, `capi` would match those inside, and each of `prover`'s three be a literal in another.
#[derive(Clone, Copy)]
pub enum Verdict {
    Proved {
        steps: u32,
        nodes: u32,
        counts: SessionCounts,
    },
    Nothing {
        steps: u32,
        counts: SessionCounts,
    },
    Undecided {
        steps: u32,
        counts: SessionCounts,
    },
}
