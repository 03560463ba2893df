// Source text: its bytes, characters, lines and words, before there are tokens.
//
// The entry points are `word` and `numeral`, which `words` hands on. They ask nothing of their caller, and each contract fixes
// the answer on all inputs. The modules serve the crates above.
#![tactic(auto)]

pub mod bytes; // comparing bytes
pub mod utf8; // RFC 3629
pub mod characters; // the class table and the character test
pub mod lines; // line ends and comments
pub mod numerals; // 64-bit values

ghost use Rattle.std.specs.Prelude.{◌≡◌};
ghost use Rattle.source_text.specs.Parts.{part_of, NumeralRead};

use numerals::value;

// A word of a text, whole: the part of `length` bytes from `start` on. A place outside the text gives the empty part.
pub fn word<'a>(text: &'a [u8], start: usize, length: usize) -> &'a [u8]
    ensures { result.now ≡ part_of text.now start length }
{
    slices::part(text, start, length)
}

// The value of the numeral at a place of a text; none where it is too large, the refusal 5.
pub fn numeral(text: &[u8], start: usize, length: usize) -> Option<u64>
    ensures { NumeralRead text.now start length result }
{
    value(word(text, start, length))
}
