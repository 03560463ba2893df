// Flattening: the calls inside a term become premises, inner first and left to right, each with a variable for its result (document 01, "Rules").
//
// All functions here serve the crates above: `Room` and the contracts say what they ask.
#![tactic(auto)]

ghost use Rattle.std.specs.Prelude.{◌≡◌, ◌+◌, ◌-◌, ◌*◌, ◌≤◌, ◌<◌, length};
ghost use Rattle.source_text.specs.Parts.{part_of};
ghost use Rattle.names.specs.Names.{result_length};
ghost use Rattle.names.specs.Named.{symbols_named};
ghost use Rattle.names.specs.Symbols.{column};
ghost use Rattle.flattening.specs.Promises.{call_limit, arity_of, callee_of, Finishes, Room, Flattens};

use names::columns::MARK;
use names::{FUNCTION, PREMISES, SourceTerms, TermRow, Word};

// How far flattening is: the next row of the source, where the next row of the term and of the premises goes, and how many calls were made.
// Stays: `out` and `calls` go beside it: of a struct that lends both, each contract from here to `declarations` would say that both come back.
#[derive(Clone, Copy)]
pub struct Place {
    pub next: usize,
    pub top: usize,
    pub end: usize,
    pub number: usize,
}

// The number of the function that a row calls, if it stands for a call.
pub fn callee(source: SourceTerms, row: &TermRow) -> Option<usize>
    ensures { result ≡ callee_of (symbols_named source.entry) (column row.now 0) (part_of source.entry.text.now (column row.now 1) (column row.now 2)) }
{
    if row[0] == words::METAVARIABLE || row[0] == words::NUMERAL {
        return None;
    }
    let name = names::part(source.text, Word::behind_kind(row));
    let i = names::find(source.text, source.symbols, name)?;
    if source.symbols[i][MARK] != FUNCTION {
        return None;
    }
    Some(i)
}

// How many arguments follow a row.
pub fn arity(row: &TermRow) -> usize
    ensures value { result ≡ arity_of (column row.now 0) (column row.now 3) }
    ensures upper_bound { result < 4294967296 }
{
    let [kind, _, _, n] = *row;
    if kind == term_parser::APPLICATION {
        return n as usize;
    }
    0
}

// How many bytes the name of the result variable j + 1 has.
fn result_length(j: usize) -> u32
    ensures { result ≡ result_length j }
{
    if j < 9 { 8 } else { 9 }
}

// The call whose arguments stand in `out` from `top + 1` on and before `from.top` becomes a premise; its result variable takes its place.
fn finish(
    out: &mut [TermRow],
    top: usize,
    calls: &mut [TermRow],
    from: Place,
    word: Word,
    args: usize,
) -> Option<Place>
    requires { (top < from.top) × (from.top ≤ length out.old) × (from.end + from.top + 2 * (call_limit - from.number) ≤ length calls.old) × (from.number ≤ call_limit) × (args ≤ 65536) }
    ensures { Finishes out.old top from.top calls.old from.end from.number word.start word.size args from.next out.new calls.new result }
{
    let Place {
        top: last,
        end,
        number,
        ..
    } = from;
    if number == PREMISES {
        return None;
    }
    calls[end] = [
        term_parser::APPLICATION,
        word.start,
        word.size,
        args as u32 + 1,
    ];
    let stop = end + (last - top);
    slices::copy(&mut calls[end + 1..stop], &out[top + 1..last]);
    let place = 16 * (number as u32);
    let n = result_length(number);
    calls[stop] = [names::RESULT, place, n, 0];
    out[top] = [names::RESULT, place, n, 0];
    Some(Place {
        top: top + 1,
        end: stop + 1,
        number: number + 1,
        ..from
    })
}

// The term at the row `from.next`, flattened: its rows go to `out`, its calls to `calls`, each from the place on that `from` says. No term may need more
// calls than a rule has premises.
pub fn flatten(
    source: SourceTerms,
    out: &mut [TermRow],
    calls: &mut [TermRow],
    from: Place,
) -> Option<Place>
    requires { Room source.rows.now from.next source.symbols.now (length source.symbols.now) out.old from.top calls.old from.end from.number }
    ensures { Flattens source.entry.text.now source.entry.rows.now from.next (symbols_named source.entry) out.old from.top calls.old from.end from.number out.new calls.new result }
{
    let rows = source.rows;
    let at = from.next;
    let top = from.top;
    // No term stands past the last row, so that any answer serves there.
    let row = *rows.get(at)?;
    let n = arity(&row);
    out[top] = row;
    let mut place = Place {
        next: at + 1,
        top: top + 1,
        ..from
    };
    for _i in 0..n {
        place = flatten(source, out, calls, place)?;
    }
    if callee(source, &row).is_some() {
        return finish(out, top, calls, place, Word::behind_kind(&row), n);
    }
    Some(place)
}
