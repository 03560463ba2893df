// Rows of bindings.
ghost use Rattle.bindings.specs.Promises.{Tells};
ghost use Rattle.samples.specs.Chains.{Chained};
ghost use Rattle.samples.specs.Same.{Same};

use slices::put;

// The most variables that are bound to the next one.
const LONGEST: usize = 1000000;

// Binds each variable that has a row to the next one, in order, the first 1,000,000 at most; and then the last row is the one given.
// Stays: tried with `rows.iter_mut().zip(0..1000000)`: the loop's invariant can't name the rows then, and so nothing is known of what was written.
pub fn bind_chain(rows: &mut [[u32; 2]], last: [u32; 2])
    ensures { Chained rows.old rows.new last }
{
    for i in 0..rows.len().min(LONGEST) {
        let variable = i as u32;
        rows[i] = [variable + 2, variable];
    }
    let end = rows.len().saturating_sub(1);
    put(rows, end, last);
}

// Whether two lists of rows are the same.
// Stays: tried `bindings != before` in `finish`: the borrow checker does not cover it, since one of the two was lent to be written in between.
pub fn are_same(left: &[[u32; 2]], right: &[[u32; 2]]) -> bool
    ensures { Tells result (Same left.now right.now) }
{
    left == right
}
