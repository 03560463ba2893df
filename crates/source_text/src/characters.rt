// The character test: the class and the byte length of the character at a place.
ghost use Rattle.std.specs.Prelude.{◌≡◌, ◌<◌, length, drop};
ghost use Rattle.source_text.specs.Characters.{class_number, classed_of, class_of, character_of, has_outside};

use super::bytes::starts_with;
use super::utf8::character_length;

// The classes of characters.
#[derive(Clone, Copy, Debug, PartialEq, Eq)]
pub enum Class {
    // No token has such a character.
    Stray,
    Blank,
    Letter,
    Digit,
    // The start of a sign.
    Sign,
    // Outside the domain.
    Outside,
}

// The class of each of the 128 ASCII codes, as a static, since a constant is laid out anew wherever it is named.
// Stays: tried as a `match` on ranges: declarations are lexed at 2.3 times the Rust's speed in place of 4.7, where 3 is the aim of parsing with lexing.
static CLASS: [Class; 128] = [
    Class::Stray, // 0
    Class::Stray, // 1
    Class::Stray, // 2
    Class::Stray, // 3
    Class::Stray, // 4
    Class::Stray, // 5
    Class::Stray, // 6
    Class::Stray, // 7
    Class::Stray, // 8
    Class::Blank, // 9
    Class::Blank, // 10
    Class::Blank, // 11
    Class::Blank, // 12
    Class::Blank, // 13
    Class::Stray, // 14
    Class::Stray, // 15
    Class::Stray, // 16
    Class::Stray, // 17
    Class::Stray, // 18
    Class::Stray, // 19
    Class::Stray, // 20
    Class::Stray, // 21
    Class::Stray, // 22
    Class::Stray, // 23
    Class::Stray, // 24
    Class::Stray, // 25
    Class::Stray, // 26
    Class::Stray, // 27
    Class::Stray, // 28
    Class::Stray, // 29
    Class::Stray, // 30
    Class::Stray, // 31
    Class::Blank, // 32
    Class::Stray, // !
    Class::Stray, // "
    Class::Letter, // #
    Class::Stray, // $
    Class::Stray, // %
    Class::Stray, // &
    Class::Letter, // '
    Class::Sign, // (
    Class::Sign, // )
    Class::Stray, // *
    Class::Stray, // +
    Class::Sign, // ,
    Class::Sign, // -
    Class::Letter, // .
    Class::Stray, // /
    Class::Digit, // 0
    Class::Digit, // 1
    Class::Digit, // 2
    Class::Digit, // 3
    Class::Digit, // 4
    Class::Digit, // 5
    Class::Digit, // 6
    Class::Digit, // 7
    Class::Digit, // 8
    Class::Digit, // 9
    Class::Sign, // :
    Class::Stray, // ;
    Class::Stray, // <
    Class::Sign, // =
    Class::Stray, // >
    Class::Letter, // ?
    Class::Stray, // @
    Class::Letter, // A
    Class::Letter, // B
    Class::Letter, // C
    Class::Letter, // D
    Class::Letter, // E
    Class::Letter, // F
    Class::Letter, // G
    Class::Letter, // H
    Class::Letter, // I
    Class::Letter, // J
    Class::Letter, // K
    Class::Letter, // L
    Class::Letter, // M
    Class::Letter, // N
    Class::Letter, // O
    Class::Letter, // P
    Class::Letter, // Q
    Class::Letter, // R
    Class::Letter, // S
    Class::Letter, // T
    Class::Letter, // U
    Class::Letter, // V
    Class::Letter, // W
    Class::Letter, // X
    Class::Letter, // Y
    Class::Letter, // Z
    Class::Stray, // [
    Class::Stray, // \
    Class::Stray, // ]
    Class::Stray, // ^
    Class::Letter, // _
    Class::Stray, // `
    Class::Letter, // a
    Class::Letter, // b
    Class::Letter, // c
    Class::Letter, // d
    Class::Letter, // e
    Class::Letter, // f
    Class::Letter, // g
    Class::Letter, // h
    Class::Letter, // i
    Class::Letter, // j
    Class::Letter, // k
    Class::Letter, // l
    Class::Letter, // m
    Class::Letter, // n
    Class::Letter, // o
    Class::Letter, // p
    Class::Letter, // q
    Class::Letter, // r
    Class::Letter, // s
    Class::Letter, // t
    Class::Letter, // u
    Class::Letter, // v
    Class::Letter, // w
    Class::Letter, // x
    Class::Letter, // y
    Class::Letter, // z
    Class::Stray, // {
    Class::Sign, // |
    Class::Stray, // }
    Class::Stray, // ~
    Class::Stray, // 127
];

// → in UTF-8.
pub const UNICODE_ARROW: [u8; 3] = [0xE2, 0x86, 0x92];

// A character: its class, and its length in bytes.
#[derive(Clone, Copy)]
pub struct Character {
    pub class: Class,
    pub length: usize,
}

// The class of an ASCII code.
fn class_of(c: u8) -> Class
    requires { c < 128 }
    ensures { class_number result ≡ class_of c }
{
    CLASS[c as usize]
}

// The character at a place of a text; past the end, a stray one of no length.
// Stays: any place may be asked for, where a rest could not be cut; an `Option` would be unwrapped by each caller, where there always is a character.
pub fn character_at(text: &[u8], at: usize) -> Character
    ensures { classed_of result ≡ character_of (drop at text.now) }
{
    if text.len() <= at {
        return Character {
            class: Class::Stray,
            length: 0,
        };
    }
    let c = text[at];
    if c < 128 {
        return Character {
            class: class_of(c),
            length: 1,
        };
    }
    if starts_with(&text[at..], &UNICODE_ARROW) {
        return Character {
            class: Class::Sign,
            length: 3,
        };
    }
    Character {
        class: Class::Outside,
        length: character_length(&text[at..]).unwrap_or(0),
    }
}

// Has a line a character outside the domain?
pub fn has_outside(line: &[u8]) -> bool
    ensures { result ≡ has_outside line.now }
{
    let mut at = 0;
    while at < line.len() {
        let c = character_at(line, at);
        if let Class::Outside = c.class {
            return true;
        }
        at += c.length;
    }
    false
}
