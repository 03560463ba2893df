// Runs the check of stored bindings on cases of all kinds, and writes a line for each.
#![tactic(auto)]

ghost use Rattle.std.specs.Prelude.{◌<◌, length};

use arena::{TERM_ROOM, Terms};
use samples::build::{BINARY, CONSTANT, Tower, UNARY, put_tower};
use samples::report;
use samples::rows::bind_chain;
use samples::unification::Fault;

mod form; // bindings in form

// The most variables and words of a case, and a row of scratch for each reference.
const MOST: usize = 50000;

const WORDS: usize = 60000;

const REFERENCES: usize = TERM_ROOM as usize + WORDS;

// The check's answer, where the storage is in form; scratch must come back unmarked.
// Stays: terms, bindings and scratch have different owners; a struct of the three would be made for each call and taken apart in it again.
fn answer(terms: Terms, bindings: &[[u32; 2]], scratch: &mut [[u32; 2]]) -> Result<bool, Fault> {
    if !checks::is_unmarked(terms, scratch) {
        return Err(Fault::NotReady);
    }
    if !form::are_bindings(terms, bindings) {
        return Err(Fault::NotReady);
    }
    let acyclic = acyclicity::is_acyclic(terms, bindings, scratch);
    checks::are_zero(scratch, 0)
        .then_some(acyclic)
        .ok_or(Fault::ScratchLeft)
}

// Checks bindings, one for each variable, over words that are all in use, and writes the case's line.
fn check(name: &[u8], words: &[u32], bindings: &[[u32; 2]])
    // Each count is a word.
    requires { (length words.now < 4294967296) × (length bindings.now < 4294967296) }
{
    let mut scratch = [[0u32; 2]; REFERENCES];
    let terms = Terms {
        words,
        room: TERM_ROOM,
        variables: bindings.len() as u32,
        used: words.len() as u32,
    };
    let found = answer(terms, bindings, &mut scratch);
    report::text(name);
    match found {
        Ok(true) => {
            report::text(b": acyclic\n");
        }
        Ok(false) => {
            report::text(b": cyclic\n");
        }
        Err(Fault::NotReady) => {
            report::text(b": not in form\n");
        }
        Err(Fault::ScratchLeft) => {
            report::text(b": a mark is left\n");
        }
    }
}

// Two variables, bound by the words given.
fn two_variables(name: &[u8], first: u32, second: u32) {
    let bindings = [[first, 0], [second, 0]];
    check(name, &[], &bindings);
}

// Variables that are each bound to the next, and the last by the word given.
fn chain(name: &[u8], last: u32) {
    let mut bindings = [[0u32; 2]; MOST];
    bind_chain(&mut bindings, [last, 0]);
    check(name, &[], &bindings);
}

// Variable 0 is bound to a node over variable 1, and variable 1 to a node over a constant and the reference given.
fn nodes(name: &[u8], reference: u32) {
    let words = [CONSTANT, UNARY, 1, BINARY, TERM_ROOM, reference];
    let bindings = [[TERM_ROOM + 2, 0], [TERM_ROOM + 4, 0], [0, 0]];
    check(name, &words, &bindings);
}

// A tower of 20,000 nodes over variable 1, as a tree of more than 2^20,000, and a variable bound to its top.
fn tower(name: &[u8], variable: u32) {
    let mut words = [0u32; WORDS];
    let shared = Tower {
        height: 20000,
        leaf: 1,
        arity: 2,
    };
    let built = put_tower(&mut words, TERM_ROOM, 0, shared);
    let mut bindings = [[0u32; 2]; 2];
    slices::put(
        &mut bindings,
        variable as usize,
        [built.root.saturating_add(1), 0],
    );
    check(name, &words, &bindings);
}

fn main() {
    two_variables(b"no bindings", 0, 0);
    two_variables(b"a variable bound to another", 2, 0);
    two_variables(b"a cycle of 1", 1, 0);
    two_variables(b"a cycle of 2", 2, 1);
    two_variables(b"a variable that is not in use", 3, 0);
    chain(b"a chain of 50,000", 0);
    chain(b"a cycle of 50,000", 1);
    nodes(b"nodes", 2);
    nodes(b"a cycle through nodes", 0);
    nodes(b"a node that is its own argument", TERM_ROOM + 3);
    tower(b"a shared tower", 0);
    tower(b"a cycle through a shared tower", 1);
}
