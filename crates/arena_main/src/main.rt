// Exercises the arena: deep and shared terms that are equal or not, and malformed words. Writes a letter for each case: y the same, n not the same,
// x not in form, f in form.

#![tactic(auto)]

use arena::{PATTERN_ROOM, Terms};
use samples::build::{BINARY, CONSTANT, MOST, OTHER, Tower, UNARY, put_two};
use samples::report;

// Whether two references denote the same term; none where the words or one of both are not in form.
fn compare(words: &[u32], links: &mut [u32], a: u32, b: u32) -> Option<bool> {
    let arities = [0u32, 1, 2];
    if words.len() > MOST as usize {
        return None;
    }
    if words.len() > links.len() {
        return None;
    }
    let terms = Terms {
        words,
        room: PATTERN_ROOM,
        variables: 2,
        used: words.len() as u32,
    };
    if !arena::check_words(terms, 0, &arities) {
        return None;
    }
    if !arena::is_argument(terms, 0, a) {
        return None;
    }
    if !arena::is_argument(terms, 0, b) {
        return None;
    }
    slices::clear_from(links, 0, 0);
    Some(arena::equal(terms, links, a, b))
}

// Two towers of the heights m and n with `arity` arguments in a node, the second on the leaf given.
fn towers_in(
    words: &mut [u32],
    links: &mut [u32],
    m: u32,
    n: u32,
    leaf: u32,
    arity: u32,
) -> Option<bool> {
    let lower = Tower {
        height: m,
        leaf: 0,
        arity,
    };
    let upper = Tower {
        height: n,
        leaf,
        arity,
    };
    let [first, second] = put_two(words, PATTERN_ROOM, 0, lower, upper)?;
    compare(
        words.get(..second.next as usize)?,
        links,
        first.root,
        second.root,
    )
}

// Towers of nodes with one argument.
fn towers(m: u32, n: u32, leaf: u32) -> Option<bool> {
    let mut words = [0u32; MOST as usize];
    let mut links = [0u32; MOST as usize];
    towers_in(&mut words, &mut links, m, n, leaf, 1)
}

// Shared terms: nodes with two arguments, which are the same; there are few of them.
fn twins(m: u32, n: u32, leaf: u32) -> Option<bool> {
    let mut words = [0u32; 9000];
    let mut links = [0u32; 9000];
    towers_in(&mut words, &mut links, m, n, leaf, 2)
}

// The letter for two terms.
fn letter_of_terms(found: Option<bool>) -> u8 {
    match found {
        Some(true) => b'y',
        Some(false) => b'n',
        None => b'x',
    }
}

// The words of a term with one word changed: whether they are in form.
fn changed(place: usize, word: u32) -> bool {
    let mut words = [CONSTANT, UNARY, PATTERN_ROOM, BINARY, PATTERN_ROOM + 1, 1];
    slices::put(&mut words, place, word);
    let arities = [0u32, 1, 2, 17];
    let terms = Terms {
        words: &words,
        room: PATTERN_ROOM,
        variables: 2,
        used: 6,
    };
    arena::check_words(terms, 0, &arities)
}

// The letter for words.
fn letter_of_words(formed: bool) -> u8 {
    if formed { b'f' } else { b'x' }
}

fn main() {
    let letters = [
        letter_of_terms(towers(65000, 65000, 0)),
        letter_of_terms(towers(65000, 64999, 0)),
        letter_of_terms(towers(65000, 65000, 1)),
        letter_of_terms(twins(1000, 1000, 0)),
        letter_of_terms(twins(1000, 999, 0)),
        letter_of_terms(twins(1000, 1000, 1)),
        b'\n',
        letter_of_words(changed(6, 0)),
        letter_of_words(changed(0, PATTERN_ROOM)),
        letter_of_words(changed(0, CONSTANT + 1)),
        letter_of_words(changed(1, UNARY + 1)),
        letter_of_words(changed(1, OTHER + 1)),
        letter_of_words(changed(2, PATTERN_ROOM + 1)),
        letter_of_words(changed(3, BINARY - 1)),
        letter_of_words(changed(3, OTHER + 17)),
        letter_of_words(changed(4, PATTERN_ROOM + 2)),
        letter_of_words(changed(4, PATTERN_ROOM + 3)),
        letter_of_words(changed(4, PATTERN_ROOM + 4)),
        letter_of_words(changed(4, CONSTANT)),
        letter_of_words(changed(5, 2)),
        letter_of_words(changed(5, 0)),
        b'\n',
    ];
    report::text(&letters);
}
