// Replays a recorded list of texts: lists the tokens of each, for comparison with the recorded answers.
#![tactic(auto)]

use listing::recorded;

fn main() {
    let mut rows = [[0u32; 4]; 65536];
    // `listing::size` of the largest limit.
    let mut out = [0u8; 1703971];
    recorded::replay_input::<524288, _, _>(recorded::read, |text, recorded| {
        // The first rows are lent, as many as the list says.
        if let Some(lent) = rows.get_mut(..recorded.rows) {
            listing::list(text, recorded.limits, lent, &mut out);
        }
    });
}
