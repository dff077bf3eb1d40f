// Dots behind elements.

ghost use Rattle.std.specs.Prelude.{◌≡◌};
ghost use Rattle.text_forms.specs.declared.TokenKind.TheVariants.{Comma, Dots};
ghost use Rattle.text_forms.specs.Reading.{read, opens};
ghost use Rattle.text_forms.specs.Gives.{Gives, left, mark};
ghost use Rattle.text_forms.specs.Combined.{marked};
ghost use Rattle.ir_reader_memory.specs.Calls.{comma_dots};

use text_forms::{Cursor, SyntaxFault, TokenKind};

/// Whether a comma and dots stand next.
fn begins_dots(tokens: Cursor<'_>) -> bool
    ensures { result ≡ opens (marked Comma (mark Dots)) (left tokens.entry) }
{
    match tokens.split_first() {
        Some((TokenKind::Comma, _, rest)) => rest.is_next(TokenKind::Dots),
        _ => false,
    }
}

/// Whether a comma and dots stand next, and what is behind them.
pub fn comma_dots<'t>(tokens: Cursor<'t>) -> Result<(bool, Cursor<'t>), SyntaxFault>
    ensures { Gives (λ x. (x.0, left x.1)) result (read comma_dots (left tokens.entry)) }
{
    if !begins_dots(tokens) {
        return Ok((false, tokens));
    }
    let rest = tokens.mark(TokenKind::Comma)?;
    let rest = rest.mark(TokenKind::Dots)?;
    Ok((true, rest))
}
