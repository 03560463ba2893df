// The signs: two bytes are tried before one.
ghost use Rattle.std.specs.Prelude.{◌≡◌};
ghost use Rattle.words.specs.Items.{lexeme_item};
ghost use Rattle.words.specs.Signs.{sign_item};

use super::tokens::Lexeme;
use refusals::Refusal;

// The kinds of signs.
// Stays: C callers lend the rows, so a kind is a number there, and may be none of these; a type of kinds would be converted at each read and write.
pub const ARROW: u32 = 15;

pub const DOUBLE_ARROW: u32 = 16;

pub const DEFINES: u32 = 17;

pub const OPEN: u32 = 18;

pub const CLOSE: u32 = 19;

pub const COLON: u32 = 20;

pub const COMMA: u32 = 21;

pub const BAR: u32 = 22;

pub const EQUALS: u32 = 23;

// The sign with which a rest of a line starts.
#[tactic(auto, using(crate::proofs::Items::sign_told))]
pub fn sign_item(rest: &[u8]) -> Result<Lexeme, Refusal>
    ensures { lexeme_item result ≡ sign_item rest.now }
{
    let (kind, length) = match rest {
        [b'-', b'>', ..] => (ARROW, 2),
        [b'=', b'>', ..] => (DOUBLE_ARROW, 2),
        [b':', b'=', ..] => (DEFINES, 2),
        [b'(', ..] => (OPEN, 1),
        [b')', ..] => (CLOSE, 1),
        [b':', ..] => (COLON, 1),
        [b',', ..] => (COMMA, 1),
        [b'|', ..] => (BAR, 1),
        [b'=', ..] => (EQUALS, 1),
        [0xE2, 0x86, 0x92, ..] => (ARROW, 3), // →
        _ => return Err(Refusal::UnexpectedCharacter),
    };
    Ok(Lexeme { kind, length })
}
