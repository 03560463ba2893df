// Whether stored bindings are acyclic. The bindings are a graph over references: from a bound variable an edge leads to the reference that it is bound to,
// from a node an edge leads to each argument. The search goes through the graph in depth; scratch has by reference a mark and the way back, so that
// nothing is recursive. A place is a reference or none; a row of scratch holds it as a number.
#![tactic(auto)]

ghost use Rattle.std.specs.Prelude.{◌≡◌, ◌≤◌};
ghost use Rattle.arena.specs.Cells.{cells, headers};
ghost use Rattle.arena.specs.Rows.{column};
ghost use Rattle.acyclicity.specs.Contract.{Ready, Decided};
ghost use Rattle.acyclicity.specs.Edges.{number, edge, Followable, Searchable, Searched};

use arena::Terms;

// The mark of a reference from which all edges were followed, and which no cycle was found through. Any other mark is 0 where the search has not been,
// else 1 + the number of edges followed: below this, since a node has at most 31 arguments.
// Stays: the marks stand in rows of numbers that programs in C lend, and all but this one are counts.
const CLOSED: u32 = 33;

// A place as the number that stands for it in a row: 0 for none, else 1 + the reference.
// Stays: neither type is of this crate, so that no `From` can be written; in its one call the closure would need a contract, and be as long.
fn held_of(place: Option<u32>) -> u32
    requires { number place ≤ headers }
    ensures { result ≡ number place }
{
    place.map_or(0, |reference| reference + 1)
}

// The place that edge number `i` from a reference leads to.
fn edge_at(terms: Terms, bindings: &[[u32; 2]], reference: u32, i: u32) -> Option<u32>
    requires { Followable terms.words.now bindings.now terms.room terms.variables terms.used reference }
    ensures { number result ≡ edge terms.entry.room (cells terms.entry.words.now) (column 0 bindings.now) reference i }
{
    if reference < terms.room {
        if i == 0 {
            return bindings[reference as usize][0].checked_sub(1);
        }
        return None;
    }
    terms.arguments(reference).get(i as usize).copied()
}

// Whether the stored bindings are acyclic; leaves its marks in scratch.
// Stays: only the scratch is written; a struct of the three, lent as `&mut`, would have to promise besides that terms and bindings are as before.
fn search(terms: Terms, bindings: &[[u32; 2]], scratch: &mut [[u32; 2]]) -> bool
    requires { Searchable terms.words.now bindings.now terms.room terms.variables terms.used scratch.old }
    ensures { Searched terms.entry.words.now bindings.now terms.entry.room terms.entry.variables terms.entry.used scratch.old result scratch.new }
{
    for variable in 0..terms.variables {
        // `top` is the place that the search is at, `ahead` the place that it goes to.
        let mut top = None;
        let mut ahead = Some(variable);
        loop {
            if let Some(reference) = ahead.take() {
                let row = reference as usize;
                let mark = scratch[row][0];
                if mark == 0 {
                    scratch[row] = [1, held_of(top)];
                    top = Some(reference);
                } else if mark != CLOSED {
                    // An edge back to a reference on the way that the search has come.
                    return false;
                }
            } else if let Some(reference) = top {
                let row = reference as usize;
                let followed = scratch[row][0] - 1;
                let parent = scratch[row][1];
                match edge_at(terms, bindings, reference, followed) {
                    None => {
                        scratch[row] = [CLOSED, parent];
                        top = parent.checked_sub(1);
                    }
                    Some(target) => {
                        scratch[row] = [followed + 2, parent];
                        ahead = Some(target);
                    }
                }
            } else {
                break;
            }
        }
    }
    true
}

// Whether the stored bindings are acyclic: one search in depth through all that the variables lead to. Scratch has a row for
// each reference; it is zero before and after.
// Stays: only the scratch is written; a struct of the three, lent as `&mut`, would have to promise besides that terms and bindings are as before.
pub fn is_acyclic(terms: Terms, bindings: &[[u32; 2]], scratch: &mut [[u32; 2]]) -> bool
    requires { Ready terms.words.now bindings.now terms.room terms.variables terms.used scratch.old }
    ensures { Decided terms.entry.words.now bindings.now terms.entry.room terms.entry.variables scratch.old result scratch.new }
{
    let answer = search(terms, bindings, scratch);
    scratch[..terms.variables as usize].fill([0, 0]);
    scratch[terms.room as usize..(terms.room + terms.used) as usize].fill([0, 0]);
    answer
}
