// Bytes and numbers in decimal, written into a lent buffer where there is room for them, so that a byte is left. Where there is none, nothing is written.
ghost use Rattle.std.specs.Prelude.{◌≡◌, ◌+◌, ◌≤◌, IfOk, IfErr, length};
ghost use Rattle.evaluation_listing_kit.specs.Printing.{Moved, Unmoved};

use byte_output::Output;

// There is no room for what is to be written.
#[derive(Clone, Copy)]
pub struct NoRoom;

// The most digits of a number of 32 bits.
const DIGITS: usize = 10;

// Writes a byte.
pub fn put_byte(out: &mut Output, byte: u8) -> Result<(), NoRoom>
    ensures moved { Moved out.old out.new }
    ensures place { IfOk result (λ _. out.new.at ≡ out.old.at + 1) }
    ensures room { IfErr result (λ _. Unmoved out.old out.new × (length out.old.bytes.now ≤ out.old.at + 1)) }
{
    put(&[byte], out)
}

// Writes bytes.
// Stays: each function promises that it is written on in a buffer as long (`Moved`); an invariant tells of one value, and not of the one before.
pub fn put(bytes: &[u8], out: &mut Output) -> Result<(), NoRoom>
    ensures moved { Moved out.old out.new }
    ensures place { IfOk result (λ _. out.new.at ≡ out.old.at + length bytes.now) }
    ensures room { IfErr result (λ _. Unmoved out.old out.new × (length out.old.bytes.now ≤ out.old.at + length bytes.now)) }
{
    if out.bytes.len() - out.at <= bytes.len() {
        return Err(NoRoom);
    }
    out.write(bytes);
    Ok(())
}

// Writes a number in decimal. For any number there has to be room for ten digits and a byte.
// Stays: with a function that asks for room, as `put` does too, each would be two lines shorter, and that one be eight lines with its contract.
pub fn put_decimal(number: u32, out: &mut Output) -> Result<(), NoRoom>
    ensures moved { Moved out.old out.new }
    ensures room { IfErr result (λ _. Unmoved out.old out.new) }
{
    if out.bytes.len() - out.at <= DIGITS {
        return Err(NoRoom);
    }
    out.write_decimal(number);
    Ok(())
}
