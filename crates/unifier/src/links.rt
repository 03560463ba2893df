// Links between nodes that were found equal, used only to skip.
ghost use Rattle.std.specs.Prelude.{◌<◌, ◌≤◌, length};
ghost use Rattle.arena.specs.Cells.{headers};
ghost use Rattle.arena.specs.Rows.{column};
ghost use Rattle.unifier.specs.Promises.{LeadsTo, Falling, Joined};

use bindings::enter;

// The root to which the links lead from r.
// Stays: `bindings::walk` ends at any node as well, and promises by `Form` where bindings lead; a root is told by `Falling`, so one contract states neither.
// Stays: a struct of links with this as its invariant would serve `equate` alone, and `link` would promise besides that the same rows come back.
pub fn find(links: &[[u32; 2]], r: u32) -> u32
    requires fact_1 { Falling links.now }
    requires fact_2 { r < length links.now }
    ensures { (LeadsTo (column 0 links.now) r result) × (result ≤ r) }
{
    let mut q = r;
    loop {
        let Some(next) = links[q as usize][0].checked_sub(1) else {
            return q;
        };
        q = next;
    }
}

// Links the roots of x and y, the greater to the smaller.
// Stays: `c` counts the links that are entered; as at `bindings::enter`, the values of all keys stand in the rows beside the list.
pub fn link(links: &mut [[u32; 2]], c: u32, x: u32, y: u32)
    requires fact_1 { Falling links.old }
    requires fact_2 { (x < length links.old) × (y < length links.old) × (c < length links.old) × (x < headers) × (y < headers) }
    ensures { Joined links.old links.new c x y }
{
    let p = find(links, x);
    let q = find(links, y);
    enter(links, c, p.max(q), p.min(q) + 1);
}
