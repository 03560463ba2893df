// UTF-8 as RFC 3629 has it.
ghost use Rattle.std.specs.Prelude.{◌≡◌, ◌+◌, ◌-◌, ◌<◌, length, drop};
ghost use Rattle.source_text.specs.Utf8.{starting, positive, lead_of, tails_of, character_length, is_utf8};

// What a first byte asks of its character: the length in bytes, and the range of the second byte.
#[derive(Clone, Copy)]
pub struct Lead {
    pub length: usize,
    pub low: u8,
    pub high: u8,
}

// What a first byte asks, if a character starts with it.
fn lead_of(a: u8) -> Option<Lead>
    ensures { result ≡ starting (lead_of a) }
{
    let (length, low, high) = match a {
        0x00..=0x7F => (1, 0x80, 0xBF),
        0xC2..=0xDF => (2, 0x80, 0xBF),
        0xE0 => (3, 0xA0, 0xBF),
        0xE1..=0xEC => (3, 0x80, 0xBF),
        0xED => (3, 0x80, 0x9F),
        0xEE..=0xEF => (3, 0x80, 0xBF),
        0xF0 => (4, 0x90, 0xBF),
        0xF1..=0xF3 => (4, 0x80, 0xBF),
        0xF4 => (4, 0x80, 0x8F),
        _ => return None,
    };
    Some(Lead { length, low, high })
}

impl Lead {
    // Are the bytes behind a first byte tails, as many as it asks for, and the first of them in its range?
    fn has_tails(self, rest: &[u8]) -> bool
        requires { 0 < self.length }
        ensures { result ≡ tails_of (self.length - 1) self.low self.high rest.now }
    {
        let Some(tails) = rest.get(..self.length - 1) else {
            return false;
        };
        let Some((first, others)) = tails.split_first() else {
            return true;
        };
        (self.low..=self.high).contains(first) && others.iter().all(|c| (0x80..=0xBF).contains(c))
    }
}

// The length of the character at the start of a text, if there is one.
#[inline]
pub fn character_length(text: &[u8]) -> Option<usize>
    ensures { result ≡ positive (character_length text.now) }
{
    let (first, rest) = text.split_first()?;
    // Most characters are ASCII, so they come first.
    if *first < 0x80 {
        return Some(1);
    }
    let lead = lead_of(*first)?;
    lead.has_tails(rest).then_some(lead.length)
}

// Is the text UTF-8?
pub fn is_utf8(text: &[u8]) -> bool
    ensures { result ≡ is_utf8 text.now }
{
    str::from_utf8(text).is_ok()
}
