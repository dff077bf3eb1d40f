// What closes the brackets that are open.

ghost use Rattle.std.specs.Prelude.{◌≡◌, [], IfOk, Some, None, if◌then◌else◌};
ghost use Rattle.text_forms.specs.Form.{closer, is_closer, closed, step, is_empty};
ghost use Rattle.text_forms.specs.Reading.{ends};

use std::alloc::{AllocError, Global};
use std::marker::Model;
use text_forms::TokenKind;

/// The kinds of tokens that are awaited, each of which closes what an earlier token opened.
#[derive(Drop)]
pub struct Awaited {
    // the next one last
    closers: Vec<TokenKind>,
}

impl Model for Awaited {
    ghost use Rattle.std.specs.Prelude.{List, reverse};
    ghost use Rattle.text_forms.specs.declared.TokenKind.{TokenKind};

    ghost Value = { List TokenKind };

    ghost view = { λ s. reverse s.closers.items };
}

/// What closes that which a token opens.
fn closer(kind: TokenKind) -> Option<TokenKind>
    ensures { result ≡ closer kind }
{
    match kind {
        TokenKind::LeftParen => Some(TokenKind::RightParen),
        TokenKind::LeftBracket => Some(TokenKind::RightBracket),
        TokenKind::LeftBrace => Some(TokenKind::RightBrace),
        TokenKind::Less => Some(TokenKind::Greater),
        _ => None,
    }
}

/// Whether a token closes something.
fn is_closer(kind: TokenKind) -> bool
    ensures { result ≡ is_closer kind }
{
    matches!(
        kind,
        TokenKind::RightParen | TokenKind::RightBracket | TokenKind::RightBrace | TokenKind::Greater
    )
}

impl Awaited {
    /// Nothing is awaited.
    pub fn new(alloc: Global) -> Awaited
        ensures { result ≡ [] }
    {
        Awaited {
            closers: Vec::new(alloc),
        }
    }

    /// Whether nothing is awaited.
    pub fn is_empty(&self) -> bool
        ensures { result ≡ is_empty self.now }
    {
        self.closers.is_empty()
    }

    /// Whether a token closes, where it does so once nothing else is awaited.
    #[tactic(auto, using(crate::proofs::Stack::ends_where))]
    pub fn ends(&self, close: TokenKind, kind: TokenKind) -> bool
        ensures { result ≡ ends close self.now kind }
    {
        self.is_empty() && kind == close
    }

    /// Whether the token is the next that is awaited, which is taken away.
    fn close(&mut self, kind: TokenKind) -> bool
        ensures { closed self.old kind ≡ (if result then Some self.new else None) }
    {
        let Some(next) = self.closers.pop() else {
            return false;
        };
        next == kind
    }

    /// Goes on behind a token: whether it may stand here.
    #[tactic(auto, using(crate::proofs::Stack::pushed))]
    pub fn step(&mut self, kind: TokenKind) -> Result<bool, AllocError>
        ensures { IfOk result (λ fits. step self.old kind ≡ (if fits then Some self.new else None)) }
    {
        if let Some(close) = closer(kind) {
            self.closers.push(close)?;
            return Ok(true);
        }
        if is_closer(kind) {
            return Ok(self.close(kind));
        }
        Ok(true)
    }
}
