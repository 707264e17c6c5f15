//! The bytes of tokens.
ghost use Rattle.std.specs.Prelude.{◌≡◌, slice_range};
ghost use Rattle.rg_text.specs.Byte.{IsName};
ghost use Rattle.rg_lexer.specs.Tokens.{IsTokenOf};
ghost use Rattle.rg_lexer.specs.Lexeme.{lexeme};
ghost use Rattle.rg_grammar.specs.Entry.{IsNameOf, value_text};

use rg_lexer::{Kind, Token};
use std::str;

/// Returns the bytes of a token of the text.
pub fn text_of<'a>(bytes: &'a [u8], token: Token) -> &'a [u8]
    requires { IsTokenOf bytes.now token }
    ensures { result.now ≡ slice_range bytes.entry.now token.from token.to }
{
    &bytes[token.from as usize..token.to as usize]
}

/// Returns the name that a token of the text is.
pub fn name_of<'a>(bytes: &'a [u8], token: Token) -> &'a str
    requires { IsNameOf bytes.now token }
    ensures value { result.now ≡ slice_range bytes.entry.now token.from token.to }
    ensures name { IsName result.now }
{
    str::from_utf8(text_of(bytes, token)).unwrap()
}

/// Returns the value that a token of the text gives: a text without its quotes, and any other token as it is.
pub fn value_of<'a>(bytes: &'a [u8], token: Token) -> &'a [u8]
    requires { IsTokenOf bytes.now token }
    ensures { result.now ≡ value_text (lexeme bytes.entry.now token) }
{
    let text = text_of(bytes, token);
    match token.kind {
        Kind::Text => &text[1..text.len() - 1],
        _ => text,
    }
}
