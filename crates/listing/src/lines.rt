// The line of a token, and of a refused text.
// Stays: words of a text are bytes, which `write!` does not write, and it promises its bytes only where it answers `Ok`.
ghost use Rattle.std.specs.Prelude.{◌≡◌, ◌+◌, ◌≤◌, length};
ghost use Rattle.byte_output.specs.Output.{IsWritten};
ghost use Rattle.listing.specs.Listing.{kind_word, token_line, refused_line};

use byte_output::Output;
use words::{CHECK, METAVARIABLE, NAME, NUMERAL, Row};

// The word for a token's kind, between spaces.
// Stays: the kind is a number of a token's row, as C reads it; a type of kinds would be made for this one `match`.
fn kind_word(kind: u32) -> &'static [u8]
    ensures { result.now ≡ kind_word kind }
{
    match kind {
        0..=CHECK => b" keyword ",
        NAME => b" name ",
        METAVARIABLE => b" metavariable ",
        NUMERAL => b" numeral ",
        _ => b" sign ",
    }
}

// Writes the line of a token.
pub fn write_token(text: &[u8], row: Row, out: &mut Output)
    requires { out.old.at + length (token_line text.now row) ≤ length out.old.bytes.now }
    ensures { IsWritten out.old out.new (token_line text.now row) }
{
    let [kind, start, length, line] = row;
    out.write_decimal(line);
    out.write(kind_word(kind));
    out.write(words::word(text, start as usize, length as usize));
    out.write_byte(b'\n');
}

// Writes the line `refused N line L`.
// Stays: any number and line are listed, as the contract says; a `Rejection` has only the numbers of document 01, and would ask more of callers.
pub fn write_refused_line(number: u32, line: u32, out: &mut Output)
    requires { out.old.at + length (refused_line number line) ≤ length out.old.bytes.now }
    ensures { IsWritten out.old out.new (refused_line number line) }
{
    out.write(b"refused ");
    out.write_decimal(number);
    out.write(b" line ");
    out.write_decimal(line);
    out.write_byte(b'\n');
}
