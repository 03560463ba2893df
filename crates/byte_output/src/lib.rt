// Bytes and numbers in decimal, written into a lent buffer one behind the other.
//
// Each method asks that there is room.
#![tactic(auto)]

mod output; // the buffer

ghost use Rattle.std.specs.Prelude.{◌+◌, ◌≤◌, ◌<◌, [], ◌∷◌, length};
ghost use Rattle.byte_output.specs.Output.{numeral, IsWritten};

pub use output::Output;

impl Output<'_> {
    // Writes a byte.
    pub fn write_byte(&mut self, byte: u8)
        requires { self.old.at < length self.old.bytes.now }
        ensures { IsWritten self.old self.new (byte ∷ []) }
    {
        self.bytes[self.at] = byte;
        self.at += 1;
    }

    // Writes bytes.
    pub fn write(&mut self, bytes: &[u8])
        requires { self.old.at + length bytes.now ≤ length self.old.bytes.now }
        ensures { IsWritten self.old self.new bytes.now }
    {
        let end = self.at + bytes.len();
        self.bytes[self.at..end].copy_from_slice(bytes);
        self.at = end;
    }

    // Writes a number in decimal. A number of 32 bits has at most ten digits.
    pub fn write_decimal(&mut self, number: u32)
        requires { self.old.at + length (numeral number) ≤ length self.old.bytes.now }
        ensures { IsWritten self.old self.new (numeral number) }
    {
        let mut digits = itoa::Buffer::new();
        self.write(digits.format(number).as_bytes());
    }
}
