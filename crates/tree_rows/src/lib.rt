// Tree rows: how the tree of a derivation stands in storage, as definitions and laws, and the row of one node. The evaluator and the search write such rows.
#![tactic(auto)]

ghost use Rattle.std.specs.Prelude.{◌≡◌};
ghost use Rattle.tree_rows.specs.Trees.{tree_row};

// A node of a tree: height, kind, rule, reference of the goal; the other columns are zero.
pub type TreeRow = [u32; 8];

// The kind of a node: a rule was used.
// Stays: a number and no enum, since C reads the rows.
const RULE: u32 = 0;

// The row of a node.
pub fn row(height: u32, rule: u32, goal: u32) -> TreeRow
    ensures { result ≡ tree_row height rule goal }
{
    [height, RULE, rule, goal, 0, 0, 0, 0]
}
