//! The bytes of the signs.

ghost use Rattle.std.specs.Prelude.{◌≡◌};
ghost use Rattle.sql_lexer.specs.Token.{sign_bytes};

use crate::token::Sign;

impl Sign {
    /// The sign's one or two bytes.
    pub fn bytes(self) -> &'static [u8]
        ensures { result.now ≡ sign_bytes self }
    {
        match self {
            Sign::Open => b"(",
            Sign::Close => b")",
            Sign::Comma => b",",
            Sign::Dot => b".",
            Sign::Star => b"*",
            Sign::Plus => b"+",
            Sign::Minus => b"-",
            Sign::Equal => b"=",
            Sign::NotEqual => b"<>",
            Sign::Less => b"<",
            Sign::AtMost => b"<=",
            Sign::Greater => b">",
            Sign::AtLeast => b">=",
        }
    }
}
