// The program: reads a text from standard input and lists its tokens, or its refusal.
#![tactic(auto)]

use words::Limits;

fn main() {
    let mut text = [0u8; 8193];
    let n = io::read_full(0, &mut text);
    // The limits that document 01 sets for this program.
    let limits = Limits {
        text: 8192,
        nodes: 4096,
        steps: 2000,
        variables: 4096,
        words: 8192,
    };
    let mut rows = [[0u32; 4]; 8192];
    // `listing::size` of these limits.
    let mut out = [0u8; 213027];
    listing::list(&text[..n], limits, &mut rows, &mut out);
}
