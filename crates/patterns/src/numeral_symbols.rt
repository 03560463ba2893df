// The symbols of numerals, in a file of their own: what the contracts of this crate say names them.
ghost use Rattle.std.specs.Prelude.{◌<◌, length};

use names::SymbolRow;

// The constructors of numerals, by the numbers of their symbols.
#[derive(Clone, Copy)]
pub struct NumeralSymbols<'a> {
    pub symbols: &'a [SymbolRow],
    pub zero: usize,
    pub succ: usize,
    ghost inside: { (zero < length symbols.now) × (succ < length symbols.now) },
}
