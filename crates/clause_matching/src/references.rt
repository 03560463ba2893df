// What a pattern's reference stands for.
ghost use Rattle.std.specs.Prelude.{◌≡◌};
ghost use Rattle.clause_matching.specs.Choice.{pattern_from, Referable};

use arena::PATTERN_ROOM;

// A stored pattern: a variable, or a node by its header and the address of its first argument.
#[derive(Clone, Copy)]
pub enum Pattern {
    Variable { index: u32 },
    Node { header: u32, first: u32 },
}

// The pattern of a reference.
pub fn pattern_at(pattern: &[u32], reference: u32) -> Pattern
    requires { Referable pattern.now reference }
    ensures { result ≡ pattern_from pattern.now reference }
{
    match reference.checked_sub(PATTERN_ROOM) {
        None => Pattern::Variable { index: reference },
        Some(address) => {
            Pattern::Node {
                header: pattern[address as usize],
                first: address + 1,
            }
        }
    }
}
