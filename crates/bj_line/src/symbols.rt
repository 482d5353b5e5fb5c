ghost use Rattle.std.specs.Prelude.{◌≡◌, IfOk};

use bj_base::NoMemory;
use bj_grammar::Symbol;
use bj_token::Token;
use std::alloc::Global;

/// The symbols of some tokens.
///
/// # Errors
///
/// `NoMemory` where there is no room for them.
pub fn symbols_of(alloc: Global, tokens: &[Token]) -> Result<Vec<Symbol>, NoMemory>
    ensures { IfOk result (λ symbols. symbols.items ≡ tokens.now) }
{
    let mut symbols = Vec::new(alloc);
    for token in tokens {
        if symbols.push(Symbol::of_token(alloc, token)?).is_err() {
            return Err(NoMemory);
        }
    }
    Ok(symbols)
}
