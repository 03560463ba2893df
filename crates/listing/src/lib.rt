// The token listing of a text, written into a lent buffer, and from there to standard output.
#![tactic(auto)]

pub use standard_output::{write, write_number};

pub mod recorded; // recorded lists of texts
mod lines; // the line of a token, and of a refused text

ghost use Rattle.std.specs.Prelude.{◌≡◌, ◌+◌, ◌≤◌, length};
ghost use Rattle.byte_output.specs.Output.{Written, IsWritten};
ghost use Rattle.listing.specs.Listing.{token_lines, refused_line, listing_size, listed_buffer, listed_rows, ListingWritten};

use byte_output::Output;
use lines::{write_refused_line, write_token};
use words::{Limits, Row};

// The longest line of a refusal: both its numbers have ten digits.
const REFUSAL: usize = 35;

// A buffer of so many bytes is enough for the listing of any text under these limits.
pub fn size(limits: Limits) -> usize
    ensures { result ≡ listing_size limits }
{
    REFUSAL + 26 * (limits.capped().text as usize)
}

// Writes the lines of token rows. The loop stands apart, since behind a loop over an `Output` made there the proof would not know what the buffer holds.
fn write_rows(text: &[u8], rows: &[Row], output: &mut Output)
    requires { output.old.at + length (token_lines text.now rows.now) ≤ length output.old.bytes.now }
    ensures { IsWritten output.old output.new (token_lines text.now rows.now) }
{
    for row in rows {
        write_token(text, *row, output);
    }
}

// Writes the lines of token rows from the buffer's start on.
fn write_tokens(text: &[u8], rows: &[Row], out: &mut [u8]) -> usize
    requires { length (token_lines text.now rows.now) ≤ length out.old }
    ensures { Written out.old 0 (token_lines text.now rows.now) result out.new }
{
    let mut output = Output { bytes: out, at: 0 };
    write_rows(text, rows, &mut output);
    output.at
}

// Writes the one line of a refused text.
// Stays: with `write_tokens` as one function, what is written would be a closure, with a contract as long as these two lines and each caller's own.
fn write_refused(number: u32, line: u32, out: &mut [u8]) -> usize
    requires { length (refused_line number line) ≤ length out.old }
    ensures { Written out.old 0 (refused_line number line) result out.new }
{
    let mut output = Output { bytes: out, at: 0 };
    write_refused_line(number, line, &mut output);
    output.at
}

// Writes a line `LINE KIND TEXT` for each token of a text, or the one line `refused N line L`, from the buffer's start on, and answers how many
// bytes it wrote. The rows are left as `lex` leaves them; a buffer that is shorter than `size` says is refused, and nothing is written.
pub fn write_listing(text: &[u8], limits: Limits, rows: &mut [Row], out: &mut [u8]) -> Option<usize>
    ensures { ListingWritten text.now limits rows.old rows.new
        out.old out.new result }
{
    if out.len() < size(limits) {
        return None;
    }
    let end = match words::lex(text, limits, rows) {
        Ok(count) => write_tokens(text, &rows[..count], out),
        Err(rejection) => {
            let number = u32::from(rejection.refusal);
            write_refused(number, rejection.line, out)
        }
    };
    Some(end)
}

// Writes the listing of a text to standard output, by way of the buffer.
pub fn list(text: &[u8], limits: Limits, rows: &mut [Row], out: &mut [u8])
    ensures buffer { out.new ≡ listed_buffer text.now limits rows.old out.old }
    ensures rows { rows.new ≡ listed_rows text.now limits rows.old out.old }
{
    let Some(n) = write_listing(text, limits, rows, out) else {
        return;
    };
    write(words::word(out, 0, n));
}

// Writes the line `refused N line L` to standard output.
// Stays: as at `write_refused_line`, any number and line may be listed.
pub fn write_refusal(number: u32, line: u32) {
    let mut out = [0u8; REFUSAL];
    let n = write_refused(number, line, &mut out);
    write(words::word(&out, 0, n));
}
