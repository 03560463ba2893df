// What is to be done with two references, and the loop that makes terms equal.
ghost use Rattle.std.specs.Prelude.{◌+◌, ◌≤◌, length};
ghost use Rattle.arena.specs.Cells.{cells, Reference};
ghost use Rattle.bindings.specs.Stored.{Form};
ghost use Rattle.bindings.specs.Promises.{Free};
ghost use Rattle.unifier.specs.Promises.{Falling, Decided, Scratch};
ghost use Rattle.unifier.specs.Equating.{Equated};
ghost use Rattle.unifier.specs.Lending.{SameBuffers};

use super::links::{find, link};
use super::stack::put_pair;
use super::{Decision, Ending, Workspace};
use arena::{Terms, arity_of};
use bindings::{StoredBindings, enter, occurs, walk};

// What is to be done with x and y.
fn decide(
    terms: Terms,
    bindings: StoredBindings,
    links: &[[u32; 2]],
    marks: &mut [[u32; 2]],
    x: u32,
    y: u32,
) -> Decision
    requires fact_1 { Form terms.room terms.words.now bindings.rows.now terms.variables terms.used bindings.bound }
    requires fact_2 { (Reference terms.room (cells terms.words.now) terms.variables terms.used x) × (Reference terms.room (cells terms.words.now) terms.variables terms.used y) }
    requires fact_3 { Falling links.now }
    requires fact_4 { terms.room + terms.used ≤ length links.now }
    requires fact_5 { Free terms.room terms.used marks.old }
    ensures { Decided terms.entry.room terms.entry.words.now bindings.entry.rows.now links.now marks.old marks.new bindings.entry.bound x y result }
{
    let p = walk(terms, bindings, x);
    let q = walk(terms, bindings, y);
    if p == q {
        return Decision::Same;
    }
    if p < terms.room {
        if occurs(terms, bindings, marks, p, q) {
            return Decision::Clash;
        }
        return Decision::Bind(p, q);
    }
    if q < terms.room {
        if occurs(terms, bindings, marks, q, p) {
            return Decision::Clash;
        }
        return Decision::Bind(q, p);
    }
    let header = terms.header(p);
    if header != terms.header(q) {
        return Decision::Clash;
    }
    // Constants have no arguments to be made equal, so two with one header need no links.
    if arity_of(header) == 0 {
        return Decision::Same;
    }
    if find(links, p) == find(links, q) {
        return Decision::Same;
    }
    Decision::Open(p, q)
}

// Makes r and t equal under the first `bound` bindings, if that can be, the pairs in the Rust's order; each pair of nodes is opened at most once.
// Stays: how many pairs are open changes, and with no heap a lent buffer with that number beside it is what a stack can be.
pub fn equate(
    terms: Terms,
    bindings: &mut [[u32; 2]],
    workspace: &mut Workspace,
    bound: u32,
    r: u32,
    t: u32,
) -> Ending
    requires fact_1 { Form terms.room terms.words.now bindings.old terms.variables terms.used bound }
    requires fact_2 { (Reference terms.room (cells terms.words.now) terms.variables terms.used r) × (Reference terms.room (cells terms.words.now) terms.variables terms.used t) }
    requires fact_3 { Scratch terms.room terms.used workspace.old.links.now workspace.old.marks.now workspace.old.stack.now }
    ensures equated { Equated terms.entry.room terms.entry.words.now bindings.old bindings.new
        workspace.old.links.now workspace.new.links.now workspace.old.marks.now workspace.new.marks.now workspace.old.stack.now workspace.new.stack.now
        terms.entry.variables terms.entry.used bound r t result.equal result.bound result.linked result.pairs }
    ensures lent { SameBuffers workspace.old workspace.new }
{
    let links = &mut *workspace.links;
    let marks = &mut *workspace.marks;
    let stack = &mut *workspace.stack;
    let mut d = 0;
    let mut n = bound;
    let mut c = 0;
    let mut pending = Some((r, t));
    let equal = loop {
        match pending.take() {
            Some((x, y)) => {
                let held = StoredBindings {
                    rows: bindings,
                    bound: n,
                };
                match decide(terms, held, links, marks, x, y) {
                    Decision::Same => {}
                    Decision::Bind(v, z) => {
                        enter(bindings, n, v, z + 1);
                        n += 1;
                    }
                    Decision::Open(p, q) => {
                        put_pair(stack, d, p, q);
                        d += 1;
                    }
                    Decision::Clash => break false,
                }
            }
            None => {
                let Some(last) = d.checked_sub(1) else {
                    break true;
                };
                let [left, right, taken] = stack[last as usize];
                if taken < terms.arity(left) {
                    stack[last as usize] = [left, right, taken + 1];
                    pending = Some((terms.argument(left, taken), terms.argument(right, taken)));
                } else {
                    link(links, c, left, right);
                    c += 1;
                    stack[last as usize] = [0, 0, 0];
                    d = last;
                }
            }
        }
    };
    Ending {
        equal,
        bound: n,
        linked: c,
        pairs: d,
    }
}
