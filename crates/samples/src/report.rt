// Lines of output.
use super::unification::Fault;
pub use standard_output::{write as text, write_number as decimal};

// Writes the bindings at the positions from `from` up to `to` of the trail, each as a variable and the reference that it is bound to.
pub fn bindings(table: &[[u32; 2]], from: u32, to: u32) {
    for [_, variable] in table.iter().take(to as usize).skip(from as usize) {
        text(b", ");
        decimal(*variable);
        text(b" is ");
        match bound_to(table, *variable) {
            Some(reference) => {
                decimal(reference);
            }
            None => {
                text(b"unbound");
                return;
            }
        }
    }
}

// The reference that a variable is bound to.
fn bound_to(table: &[[u32; 2]], variable: u32) -> Option<u32> {
    let [value, _] = table.get(variable as usize)?;
    value.checked_sub(1)
}

// Writes why a call has no answer.
pub fn fault(fault: Fault) {
    match fault {
        Fault::NotReady => {
            text(b": not as the call asks");
        }
        Fault::ScratchLeft => {
            text(b": scratch is left");
        }
    }
}
