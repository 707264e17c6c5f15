//! The tokens of a whole text.
ghost use Rattle.std.specs.Prelude.{◌≡◌, ◌≢◌, ◌≤◌, ◌++◌, length, IfOk, IfErr, OnOk};
ghost use Rattle.rg_text.specs.Limits.{most_bytes};
ghost use Rattle.rg_lexer.specs.Tokens.{token_of, AreTokens, FirstLexFault};
ghost use Rattle.rg_lexer.specs.declared.token.LexFault.TheVariants.{NoMemory};

use crate::scan::{Sort, next_piece};
use crate::token::{LexFault, Token};
use std::alloc::Global;

// Adds the token that a piece is, if it is one.
fn push_token(tokens: &mut Vec<Token>, sort: Sort, from: u32, to: u32) -> Result<(), LexFault>
    ensures ok { OnOk result (tokens.new.items ≡ tokens.old.items ++ token_of sort from to) }
    ensures err { IfErr result (λ e. e ≡ NoMemory) }
{
    if let Sort::Token(kind) = sort {
        tokens.push(Token { kind, from, to })?;
    }
    Ok(())
}

/// Returns the tokens of a text of at most 16,777,216 bytes, in the order of the text, or its first fault. Blank
/// bytes and comments are left out. By `one_answer` no other answer meets these clauses, and by `spans` the tokens
/// are spans of the text, in order.
///
/// Errors: `BadByte`, `OpenString`, `OpenComment` or `LongName`, the first in the text, with its position;
/// `NoMemory` where the list of tokens can't grow.
pub fn tokens(alloc: Global, bytes: &[u8]) -> Result<Vec<Token>, LexFault>
    requires { length bytes.now ≤ most_bytes }
    ensures ok { IfOk result (λ v. AreTokens bytes.now v.items) }
    ensures fault { IfErr result (λ e. e ≢ NoMemory → FirstLexFault bytes.now e) }
{
    let mut tokens = Vec::new(alloc);
    let mut at = 0;
    while at < bytes.len() {
        let piece = next_piece(&bytes[at..], at as u32)?;
        let end = at + piece.len;
        push_token(&mut tokens, piece.sort, at as u32, end as u32)?;
        at = end;
    }
    Ok(tokens)
}
