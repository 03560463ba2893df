// Numerals of 64 bits.
ghost use Rattle.std.specs.Prelude.{◌≡◌};
ghost use Rattle.source_text.specs.Numerals.{digit_of, all_digits, numeral_of};

// The value of a digit.
pub fn digit(c: u8) -> Option<u32>
    ensures { result ≡ digit_of c }
{
    char::from(c).to_digit(10)
}

// Are all bytes of a word digits?
pub fn all_digits(w: &[u8]) -> bool
    ensures { result ≡ all_digits w.now }
{
    w.iter().all(|c| c.is_ascii_digit())
}

// The value of a word of digits, if it has 64 bits.
// Stays: `parse` takes a leading `+` too, which is no digit, and a `str`, which these bytes would first have to be tested for.
pub fn value(w: &[u8]) -> Option<u64>
    ensures { result ≡ numeral_of w.now }
{
    if w.is_empty() {
        return None;
    }
    let mut v: u64 = 0;
    for c in w {
        let d = digit(*c)?;
        v = v.checked_mul(10)?.checked_add(u64::from(d))?;
    }
    Some(v)
}
