// The proof that the frames are, as rows in preorder.
ghost use Rattle.std.specs.Prelude.{◌≡◌};
ghost use Rattle.deepening.specs.Trees.{tree_rows};

use search_machine::Frame;
use tree_rows::row as row_of_node;

// Turns the first frames into the rows of the proof, with the height from the top.
// Stays: tried with `&mut store.frames[..count]` lent: clause `left` of `leave` is open, as of a part of a field that was lent only the length is known.
pub fn write_tree(frames: &mut [[u32; 8]], count: u32, depth: u32)
    ensures { frames.new ≡ tree_rows depth frames.old count }
{
    let end = frames.len().min(count as usize);
    for row in &mut frames[..end] {
        let x = Frame::from(*row);
        let height = depth.saturating_sub(x.depth);
        *row = row_of_node(height, x.rule, x.goal);
    }
}
