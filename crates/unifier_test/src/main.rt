// Runs `unify`, `occurs`, `check_bindings` and `undo` on deep, shared, cyclic and malformed storage, and writes a line for each case.
#![tactic(auto)]

ghost use Rattle.std.specs.Prelude.{◌≤◌};

use arena::TERM_ROOM;
use cases::{MANY, Towers};
use samples::build::Tower;

mod cases; // storage, call and line

// The constants' references.
const FIRST_CONSTANT: u32 = TERM_ROOM;

const SECOND_CONSTANT: u32 = TERM_ROOM + 1;

// The node at so many levels of the towers that start at the address 2, of nodes with one argument.
const fn node(level: u32) -> u32
    requires { level ≤ 1000000 }
{
    TERM_ROOM + 2 * level
}

// The same for nodes with two arguments.
const fn shared_node(level: u32) -> u32
    requires { level ≤ 1000000 }
{
    TERM_ROOM + 3 * level - 1
}

// A tower of nodes with one argument.
fn tower(height: u32, leaf: u32) -> Tower {
    Tower {
        height,
        leaf,
        arity: 1,
    }
}

// A tower of nodes whose two arguments are the node below.
fn shared_tower(height: u32, leaf: u32) -> Tower {
    Tower {
        arity: 2,
        ..tower(height, leaf)
    }
}

// Two towers, and two references.
fn two_towers(lower: Tower, upper: Tower, left: u32, right: u32) -> Towers {
    Towers {
        lower,
        upper,
        left,
        right,
        paired: false,
    }
}

// One tower, and two references.
fn one_tower(lower: Tower, left: u32, right: u32) -> Towers {
    two_towers(lower, tower(0, 0), left, right)
}

// A shared tower of 1,000 levels, and another tower.
fn shared(leaf: u32, upper: Tower, right: u32) -> Towers {
    two_towers(shared_tower(1000, leaf), upper, shared_node(1000), right)
}

// One tower, and pairs with its nodes.
fn pairs(lower: Tower, left: u32, right: u32) -> Towers {
    Towers {
        paired: true,
        ..one_tower(lower, left, right)
    }
}

// Unifications of towers.
fn unify_towers() {
    cases::unify(
        b"100,000 levels, the lower 95,000 shared",
        two_towers(
            tower(100000, 0),
            tower(5000, node(95000)),
            node(100000),
            node(105000),
        ),
    );
    cases::unify(
        b"52,000 levels on two variables",
        two_towers(tower(52000, 0), tower(52000, 1), node(52000), node(104000)),
    );
    cases::unify(
        b"a constant after 100,000 levels",
        one_tower(tower(105000, FIRST_CONSTANT), node(105000), node(100000)),
    );
    cases::unify(
        b"a binding, and a constant after 100,000 levels",
        pairs(tower(105000, FIRST_CONSTANT), node(105000), node(100000)),
    );
    cases::unify(
        b"a variable and a tower of 100,000 on it",
        one_tower(tower(100000, 0), 0, node(100000)),
    );
    cases::unify(
        b"a variable and a tower of 100,000 on another",
        one_tower(tower(100000, 0), 1, node(100000)),
    );
    cases::unify(
        b"100,000 levels, and 5,000 more on the same variable",
        one_tower(tower(105000, 0), node(105000), node(100000)),
    );
}

// Unifications of terms of 2^1000 leaves.
fn unify_shared() {
    cases::unify(
        b"2^1000 leaves",
        shared(
            FIRST_CONSTANT,
            shared_tower(1000, FIRST_CONSTANT),
            shared_node(2000),
        ),
    );
    cases::unify(
        b"2^1000 leaves on two variables",
        shared(0, shared_tower(1000, 1), shared_node(2000)),
    );
    cases::unify(
        b"2^1000 leaves, another constant",
        shared(
            FIRST_CONSTANT,
            shared_tower(1000, SECOND_CONSTANT),
            shared_node(2000),
        ),
    );
    cases::unify(
        b"2^1000 and 2^999 leaves",
        shared(
            FIRST_CONSTANT,
            shared_tower(999, FIRST_CONSTANT),
            shared_node(1999),
        ),
    );
    cases::unify(
        b"2^1000 and 2^999 leaves on a variable",
        shared(0, shared_tower(999, 0), shared_node(1999)),
    );
}

// Whether variables occur.
fn occur() {
    cases::occurs(
        b"a variable in a tower of 100,000 on it",
        one_tower(tower(100000, 0), 0, node(100000)),
    );
    cases::occurs(
        b"a variable in a tower of 100,000 on another",
        one_tower(tower(100000, 0), 1, node(100000)),
    );
    cases::occurs(
        b"a variable that is all of 2^1000 leaves",
        one_tower(shared_tower(1000, 0), 0, shared_node(1000)),
    );
    cases::occurs(
        b"a bound variable",
        one_tower(tower(5000, 0), 60, node(5000)),
    );
}

// Checks of bindings.
fn check_bindings() {
    cases::check_three(b"no bindings", [[0, 0], [0, 0], [0, 0]], 0);
    cases::check_three(b"a variable bound to another", [[3, 0], [0, 0], [0, 0]], 1);
    cases::check_three(
        b"a variable bound to a node",
        [[0, 1], [TERM_ROOM + 1, 0], [0, 0]],
        1,
    );
    cases::check_three(b"a cycle of 1", [[1, 0], [0, 0], [0, 0]], 1);
    cases::check_three(b"a cycle of 2", [[2, 0], [1, 1], [0, 0]], 2);
    cases::check_three(
        b"a cycle through a node",
        [[TERM_ROOM + 1, 0], [0, 0], [0, 0]],
        1,
    );
    cases::check_chain(b"a chain of 50,000", [0, 0], MANY - 1);
    cases::check_chain(b"a cycle of 50,000", [1, MANY - 1], MANY);
    cases::check_three(b"a trail with a repeat", [[3, 0], [0, 0], [0, 0]], 2);
    cases::check_three(
        b"a trail without a bound variable",
        [[3, 0], [3, 0], [0, 0]],
        1,
    );
    cases::check_three(
        b"a trail with an unbound variable",
        [[3, 0], [0, 1], [0, 0]],
        2,
    );
    cases::check_three(b"a trail that goes on", [[3, 0], [0, 2], [0, 0]], 1);
    cases::check_three(
        b"a value that is no header's",
        [[TERM_ROOM + 2, 0], [0, 0], [0, 0]],
        1,
    );
    cases::check_three(
        b"a value behind the words",
        [[TERM_ROOM + 3, 0], [0, 0], [0, 0]],
        1,
    );
    cases::check_three(
        b"a variable that is not in use",
        [[4, 0], [0, 0], [0, 0]],
        1,
    );
}

fn main() {
    unify_towers();
    unify_shared();
    occur();
    check_bindings();
}
