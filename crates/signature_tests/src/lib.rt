// Tests of what a load leaves in lent storage, for programs that load texts. A test that fails writes a line that begins with `wrong`.
#![tactic(auto)]

pub mod buffers; // what the lent buffers hold before and after
pub mod damage; // damaged signatures, which must be refused
