ghost use Rattle.std.specs.Prelude.{◌≡◌, IfOk};
ghost use Rattle.bj_grammar.specs.Terminal.{terminal as spec_terminal};

use crate::Terminal;
use crate::spelling::terminal_of;
use bj_base::{Copies, JText, NoMemory, Span};
use bj_token::{Token, TokenKind};
use std::alloc::Global;
use std::marker::Model;

/// A token with its terminal, which contracts see as the token.
#[derive(Drop)]
pub struct Symbol {
    terminal: Terminal,
    kind: TokenKind,
    at: Span,
    text: JText,
}

impl Model for Symbol {
    ghost use Rattle.std.specs.Prelude.{◌≡◌};
    ghost use Rattle.bj_token.specs.declared.token.Token.{Token};
    ghost use Rattle.bj_grammar.specs.Terminal as words;

    ghost Value = { Token };

    ghost view = { λ s. record { kind = s.kind; at = s.at; text = s.text } };

    ghost invariant = { λ s. s.terminal ≡ words.terminal (record { kind = s.kind; at = s.at; text = s.text }) };
}

impl Symbol {
    /// The symbol of a token.
    ///
    /// # Errors
    ///
    /// `NoMemory` where there is no room for its units.
    #[tactic(auto, unfolding(crate::specs::Terminal::terminal))]
    pub fn of_token(alloc: Global, token: &Token) -> Result<Symbol, NoMemory>
        ensures { IfOk result (λ s. s ≡ token.now) }
    {
        let text = token.text.copy(alloc)?;
        let terminal = terminal_of(token.kind, token.text.as_slice());
        Ok(Symbol {
            terminal,
            kind: token.kind,
            at: token.at,
            text,
        })
    }

    /// Which terminal it is.
    pub fn terminal(&self) -> Terminal
        ensures { result ≡ spec_terminal self.now }
    {
        self.terminal
    }

    /// Where it stands.
    pub fn at(&self) -> Span
        ensures { result ≡ self.now.at }
    {
        self.at
    }

    /// Its units.
    pub fn text(&self) -> &[u16]
        ensures { result.now ≡ self.now.text }
    {
        self.text.as_slice()
    }
}
