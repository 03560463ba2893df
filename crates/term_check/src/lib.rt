// Term check: whether stored rows are exactly those of a term, as the parser leaves one; for the tests of goals and expressions. It is a
// crate of its own and no module of `term_parser`, so that the proofs and edits there stay quick, and since its laws speak of whole texts.
//
// `check_term` asks nothing of its caller, and its contract fixes the answer on all inputs.
#![tactic(auto)]

ghost use Rattle.std.specs.Prelude.{◌≡◌, length};
ghost use Rattle.term_check.specs.TermRows.{Checking};
ghost use Rattle.term_check.specs.Walk.{Topped};

use names::{Source, Word, is_word_place};
use term_parser::tokens::held;

// The levels of a term of depth 131, the deepest that is parsed, and one more for what would follow there.
const LEVELS: usize = 132;

// How many arguments the term takes whose first row this is; none where it is not the first of a term.
fn top_of(text: &[u8], row: [u32; 4]) -> Option<u32>
    ensures { Topped text.now row result }
{
    let [kind, start, size, count] = row;
    if !is_word_place(text, Word { start, size }) {
        return None;
    }
    // Stays: C callers lend the number, which may be none of these; an enum would be made by the same `match`, only to be matched again here.
    match kind {
        words::NUMERAL => (held(text, start, size) == Some(count)).then_some(0),
        term_parser::APPLICATION => (count != 0).then_some(count),
        words::METAVARIABLE | words::NAME => (count == 0).then_some(0),
        _ => None,
    }
}

// The row past the term, if there is one. A table holds how many terms are still to come at each level.
pub fn check_term(source: Source) -> Option<usize>
    ensures { Checking source.entry.text.now source.entry.rows.now source.entry.at result }
{
    let Source { text, rows, at } = source;
    let mut left = [0u32; LEVELS];
    left[0] = 1;
    let mut d: usize = 1;
    let mut p = at;
    // Stays: `d` is the height of a stack of levels, which grows and shrinks.
    while let Some(top) = d.checked_sub(1) {
        let Some(rest) = left[top].checked_sub(1) else {
            d = top;
            continue;
        };
        if LEVELS <= d {
            return None;
        }
        let count = top_of(text, *rows.get(p)?)?;
        left[top] = rest;
        left[d] = count;
        d += 1;
        p += 1;
    }
    Some(p)
}
