ghost use Rattle.std.specs.Prelude.{◌≡◌, length};
ghost use Rattle.euclid_lexer.specs.Signs.{sign_text};

use key_table::Text;

/// The signs, in the order `:` `[` `]` `{` `}` `(` `)` `,` `&` `@` `%` `=` `/=` `<` `<=` `>` `>=`.
#[derive(Clone, Copy, Debug, PartialEq, Eq)]
pub enum Sign {
    Colon,
    SquareOpen,
    SquareClose,
    CurlyOpen,
    CurlyClose,
    RoundOpen,
    RoundClose,
    Comma,
    Ampersand,
    AtSign,
    Percent,
    Equal,
    NotEqual,
    Less,
    LessEqual,
    Greater,
    GreaterEqual,
}

impl Sign {
    // How many bytes the sign has.
    pub(crate) fn len(self) -> usize
        ensures { result ≡ length (sign_text self) }
    {
        match self {
            Sign::NotEqual | Sign::LessEqual | Sign::GreaterEqual => 2,
            _ => 1,
        }
    }
}

/// A word, the text between the quotes of a string, a number's value, or a sign.
#[derive(Debug, Drop)]
pub enum Token {
    Word(Text),
    Str(Text),
    Number(i64),
    Sign(Sign),
}

/// A token, and the number of its first byte in the text, counted from 0.
#[derive(Debug, Drop)]
pub struct Placed {
    pub at: u32,
    pub token: Token,
}
