// Comparing bytes.
ghost use Rattle.std.specs.Prelude.{◌≡◌};
ghost use Rattle.source_text.specs.Bytes.{same_bytes, starts_with};

// Are two words the same, byte by byte?
// Stays: `==` promises the library's equality; that this is `same_bytes`, of which the callers' contracts speak, is proved here once.
pub fn same(v: &[u8], w: &[u8]) -> bool
    ensures { result ≡ same_bytes v.now w.now }
{
    v == w
}

// Does a text start with w?
// Stays: as `same`.
pub fn starts_with(text: &[u8], w: &[u8]) -> bool
    ensures { result ≡ starts_with w.now text.now }
{
    text.starts_with(w)
}
