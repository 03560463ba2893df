// Links between nodes that have to denote the same term.
ghost use Rattle.std.specs.Prelude.{◌≡◌, suc, ◌-◌, ◌<◌, length};
ghost use Rattle.arena.specs.Cells.{headers, cells};
ghost use Rattle.arena.specs.Links.{Linkable, Arguments, Comparable, Joined, Settled};

use super::Terms;

// Whether what was linked so far can be the same, and an address below which there are no links.
// Stays: `low` is read where `same` is false too, since the links that are left have to be cleared.
#[derive(Clone, Copy)]
pub struct Linked {
    pub same: bool,
    pub low: u32,
}

// Links two references, which have to denote the same term; not the same are a variable and any other reference.
pub fn link(links: &mut [u32], room: u32, a: u32, b: u32, low: u32) -> Linked
    // The links are those of an earlier step, and there is one for each node.
    requires { Linkable room links.old a b }
    ensures { Joined room links.old links.new 1 (λ _. a) (λ _. b) low result.low result.same }
{
    let mut p = a;
    let mut q = b;
    while p != q {
        let high = p.max(q);
        let lower = p.min(q);
        if lower < room {
            return Linked { same: false, low };
        }
        let at = (high - room) as usize;
        let Some(next) = links[at].checked_sub(1) else {
            links[at] = lower + 1;
            return Linked {
                same: true,
                low: low.min(high - room),
            };
        };
        // The links of one class are shortened on the way, so that later ones take few steps.
        links[at] = lower.min(next) + 1;
        p = next;
        q = lower;
    }
    Linked { same: true, low }
}

// Links the arguments of two nodes, each with its like.
pub fn link_arguments(links: &mut [u32], room: u32, left: &[u32], right: &[u32], low: u32) -> Linked
    // The nodes have as many arguments, and there is a link for each.
    requires { Arguments room left.now right.now links.old }
    ensures { Joined room links.old links.new (length left.now) (cells left.now) (cells right.now) low result.low result.same }
{
    let mut floor = low;
    for (a, b) in left.iter().zip(right) {
        let step = link(links, room, *a, *b, floor);
        if !step.same {
            return step;
        }
        floor = step.low;
    }
    Linked {
        same: true,
        low: floor,
    }
}

// Takes up the link of the node at the address `at`: removes it, and links the node's arguments with those of the node to which it led.
pub fn settle(terms: Terms, links: &mut [u32], at: u32, linked: Linked) -> Linked
    // The words are in form, and the links join references in form.
    requires fact_1 { Comparable terms.room terms.words.now links.old terms.variables terms.used }
    requires fact_2 { at < terms.used }
    ensures { Settled terms.entry.room terms.entry.words.now links.old links.new terms.entry.variables terms.entry.used at linked.same linked.low result.low result.same }
{
    let Some(next) = links[at as usize].checked_sub(1) else {
        return linked;
    };
    links[at as usize] = 0;
    let low = linked.low;
    if linked.same {
        let node = terms.room + at;
        if terms.header(node) == terms.header(next) {
            let left = terms.arguments(node);
            let right = terms.arguments(next);
            return link_arguments(links, terms.room, left, right, low);
        }
    }
    Linked { same: false, low }
}

// The number of addresses up to that of a reference, 0 for a variable.
pub fn past(room: u32, reference: u32) -> u32
    // The sum fits.
    requires { reference < headers }
    ensures { result ≡ suc reference - room }
{
    (reference + 1).saturating_sub(room)
}
