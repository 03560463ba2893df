// The buffer that is written into, in a file of its own: what the contracts of this crate say names it.
ghost use Rattle.std.specs.Prelude.{◌≤◌, length};

// A lent buffer, which is written up to a place.
// Stays: contracts speak of the whole buffer; with the unwritten rest alone, each caller would join it to what is written and count that again.
#[derive(Drop)]
pub struct Output<'a> {
    pub bytes: &'a mut [u8],
    pub at: usize,
    pub ghost fits: { at ≤ length bytes.now },
}
