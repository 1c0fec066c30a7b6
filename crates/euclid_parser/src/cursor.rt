//! The place up to which tokens were read.

ghost use Rattle.std.specs.Prelude.{◌≡◌, [], ◌∷◌, length, ◌<◌, IfSome};
ghost use Rattle.std.specs.Option.{IfNone};
ghost use Rattle.euclid_grammar.specs.Texts.{tokens_alone};

use crate::fault::{Code, Fault};
use euclid_grammar::Counts;
use euclid_lexer::{Placed, Token};
use key_table::Stop;

/// The tokens that are left, and what was begun before them.
#[derive(Clone, Copy)]
pub(crate) struct Cursor<'a> {
    pub tokens: &'a [Placed],
    pub counts: Counts,
}

/// The first token, and the place behind it.
pub(crate) fn next<'a>(at: Cursor<'a>) -> Option<(&'a Token, Cursor<'a>)>
    ensures some { IfSome result (λ x. tokens_alone at.entry.tokens.now ≡ x.0.now ∷ tokens_alone x.1.tokens.now) }
    ensures none { IfNone result (tokens_alone at.entry.tokens.now ≡ []) }
    ensures counts { IfSome result (λ x. x.1.counts ≡ at.entry.counts) }
    ensures shorter { IfSome result (λ x. length x.1.tokens.now < length at.entry.tokens.now) }
{
    match at.tokens {
        [first, tokens @ ..] => Some((&first.token, Cursor { tokens, ..at })),
        [] => None,
    }
}

/// The fault of a token that cannot stand there.
pub(crate) fn unexpected(at: Cursor) -> Stop<Fault>
    ensures { result ≡ Stop.Fault (record { code = Code.Unexpected; left = length at.entry.tokens.now }) }
{
    Stop::Fault(Fault {
        code: Code::Unexpected,
        left: at.tokens.len(),
    })
}

/// The fault of a token that begins one too many.
pub(crate) fn too_much(at: Cursor) -> Stop<Fault>
    ensures { result ≡ Stop.Fault (record { code = Code.TooMuch; left = length at.entry.tokens.now }) }
{
    Stop::Fault(Fault {
        code: Code::TooMuch,
        left: at.tokens.len(),
    })
}
