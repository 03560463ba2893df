// The stack of open pairs: in a row two nodes whose arguments are being made equal, and how many of them were taken.
ghost use Rattle.std.specs.Prelude.{◌≡◌, ◌≤◌, ◌<◌, ◌∷◌, [], set, length};
ghost use Rattle.bindings.specs.Promises.{Replaced};
ghost use Rattle.unifier.specs.Promises.{cleared};

// Puts a pair of nodes on the stack, behind d others.
// Stays: the row behind the d pairs is written, so that no part up to d can be lent.
pub fn put_pair(s: &mut [[u32; 3]], d: u32, left: u32, right: u32)
    requires { d < length s.old }
    ensures { Replaced s.old s.new d 3 (set s.old d (left ∷ right ∷ 0 ∷ [])) }
{
    s[d as usize] = [left, right, 0];
}

// Sets the rows of the stack below d to 0.
// Stays: tried `fill` of `workspace.stack[..d]` at its one call, and by a local: of the field only the length is known then (`returns-clause-unified`).
pub fn clear_before(s: &mut [[u32; 3]], d: u32)
    requires { d ≤ length s.old }
    ensures { s.new ≡ cleared s.old d }
{
    s[..d as usize].fill([0, 0, 0]);
}
