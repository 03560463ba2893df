// A frame for each rule that is entered: what is tried next if it fails, and how its premises are found.
ghost use Rattle.std.specs.Prelude.{◌≡◌};
ghost use Rattle.search_machine.specs.State.{frame_of, row_of};

// One application of a rule: the rule, its goal, the depth that its premises get; the place that it takes, a premise of its parent; and the
// variables, bindings and words in use before it.
// Stays: parent 0 is the top. Tried an `Option`: the row has one more, so that `from` has to ask that this fits, and an impl may ask no more than its trait.
#[derive(Clone, Copy)]
pub struct Frame {
    pub rule: u32,
    pub goal: u32,
    pub depth: u32,
    pub parent: u32,
    pub place: u32,
    pub counter: u32,
    pub bound: u32,
    pub used: u32,
}

impl From<[u32; 8]> for Frame {
    ghost from_gives = { λ row x. x ≡ frame_of row };

    fn from(row: [u32; 8]) -> Frame {
        let [rule, goal, depth, parent, place, counter, bound, used] = row;
        Frame {
            rule,
            goal,
            depth,
            parent,
            place,
            counter,
            bound,
            used,
        }
    }
}

impl From<Frame> for [u32; 8] {
    ghost from_gives = { λ x row. row ≡ row_of x };

    fn from(x: Frame) -> [u32; 8] {
        [
            x.rule, x.goal, x.depth, x.parent, x.place, x.counter, x.bound, x.used,
        ]
    }
}
