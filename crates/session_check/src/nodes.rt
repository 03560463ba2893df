// Words in form over the arities of the signature's symbols.
ghost use Rattle.std.specs.Prelude.{◌≡◌, List, ℕ, ◌+◌, ◌≤◌, length};
ghost use Rattle.arena.specs.Cells.{headers};
ghost use Rattle.arena.specs.Form.{in_form};
ghost use Rattle.names.specs.Symbols.{symbols_of};
ghost use Rattle.rules.specs.PatternLaws.{arities_of};

use arena::Terms;
use loader::SYMBOLS;
use names::SymbolRow;
use signature::ARITY;

// Are the words in use nodes of these symbols, with arguments that there are? A text gives the symbols names, which do not matter here.
pub fn are_words_formed(symbols: &[SymbolRow], terms: Terms) -> bool
    requires { (length symbols.now ≤ 1024) × (terms.used ≤ length terms.words.now) × (terms.room + terms.used ≤ headers) }
    ensures { (text : List ℕ)
        → result ≡ in_form terms.entry.words.now 0 terms.entry.used terms.entry.room terms.entry.variables (arities_of (symbols_of text symbols.now (length symbols.now))) }
{
    let mut arities = [0u32; SYMBOLS];
    signature::put_column(symbols, ARITY, &mut arities);
    arena::check_words(terms, 0, &arities[..symbols.len()])
}
