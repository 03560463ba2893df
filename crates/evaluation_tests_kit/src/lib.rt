// Tests of what an evaluation leaves in lent storage, for programs that evaluate terms. A test that fails writes a line that begins with `wrong`.
#![tactic(auto)]

pub mod lent; // the buffers that are lent to an evaluation
pub mod refused; // calls that must be refused by 1
