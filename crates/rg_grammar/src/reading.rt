//! What the tokens of a text declare, or the first that can't continue the grammar.
ghost use Rattle.std.specs.Prelude.{◌≡◌, ◌≢◌, ◌≤◌, ℕ, List, All, length, map, option_map, IfOk, IfErr, IfSome, OnOk};
ghost use Rattle.rg_text.specs.Limits.{most_bytes};
ghost use Rattle.rg_lexer.specs.Lexeme.{Lexeme, lexeme, AreLexemes};
ghost use Rattle.rg_lexer.specs.Tokens.{IsTokenOf};
ghost use Rattle.rg_grammar.specs.declared.fault.ItemFault.{ItemFault};
ghost use Rattle.rg_grammar.specs.declared.fault.ItemFault.TheVariants.{NoMemory};
ghost use Rattle.rg_grammar.specs.Grammar.{Grammar, FirstRefusal, Finds};
ghost use Rattle.rg_grammar.specs.Text.{FirstItemFault};

use crate::fault::ItemFault;
use rg_lexer::{Token, tokens};
use std::alloc::Global;

/// What is found of a text, token by token, by the rules of a grammar.
pub trait Reader {
    /// The position of a token. The tokens that it holds came before it and still count.
    type Position: Copy;

    /// The positions of the grammar.
    ghost GrammarPosition: { Type 0 };

    /// What is found by the grammar.
    ghost Content: { Type 0 };

    /// The grammar.
    ghost grammar: { Grammar GrammarPosition Content ItemFault };

    /// A position, with the bytes that its tokens have in the text.
    ghost grammar_position_in: { List ℕ → Self.Position → GrammarPosition };

    /// What is found, with the bytes that its tokens have in the text.
    ghost content_in: { List ℕ → Self → Content };

    /// The tokens that a position holds are of the text.
    ghost holds_tokens: { List ℕ → Self.Position → Type 0 };

    /// The tokens of what is found are of the text.
    ghost holds_names: { List ℕ → Self → Type 0 };

    /// Returns a reading that has found nothing.
    fn new(alloc: Global) -> Self
        ensures found { (bytes : List ℕ) → content_in bytes result ≡ grammar.nothing }
        ensures names { (bytes : List ℕ) → holds_names bytes result };

    /// Returns the position of the first token.
    fn start() -> Self::Position
        ensures position { (bytes : List ℕ) → grammar_position_in bytes result ≡ grammar.start }
        ensures holds { (bytes : List ℕ) → holds_tokens bytes result };

    /// Returns the position after a token of the text, or None if the token isn't allowed.
    fn lead(bytes: &[u8], position: Self::Position, token: Token) -> Option<Self::Position>
        requires token { IsTokenOf bytes.now token }
        requires held { holds_tokens bytes.now position }
        ensures leads { option_map (grammar_position_in bytes.now) result ≡ grammar.leads (grammar_position_in bytes.now position) (lexeme bytes.now token) }
        ensures holds { IfSome result (holds_tokens bytes.now) };

    /// Adds what is found with a token at a position.
    fn add(
        &mut self,
        alloc: Global,
        bytes: &[u8],
        position: Self::Position,
        token: Token,
    ) -> Result<(), ItemFault>
        requires token { IsTokenOf bytes.now token }
        requires held { holds_tokens bytes.now position }
        ensures ok { OnOk result (content_in bytes.now self.new ≡ grammar.adds (grammar_position_in bytes.now position) (lexeme bytes.now token) (content_in bytes.now self.old)) }
        ensures names { OnOk result (holds_names bytes.now self.old → holds_names bytes.now self.new) }
        ensures err { IfErr result (λ e. e ≡ NoMemory) };

    /// Returns whether the text may end at a position.
    fn may_end(position: Self::Position) -> bool
        ensures { (bytes : List ℕ) → result ≡ grammar.may_end (grammar_position_in bytes position) };

    /// Returns the fault of a token that isn't allowed at a position.
    fn refusal(position: Self::Position, token: Token) -> ItemFault
        ensures { (bytes : List ℕ) → result ≡ grammar.refuses (grammar_position_in bytes position) (lexeme bytes token) };

    /// Returns the fault of an end at a position where the text may not end.
    fn end_refusal(position: Self::Position, end: u32) -> ItemFault
        ensures { (bytes : List ℕ) → result ≡ grammar.ends (grammar_position_in bytes position) end };
}

// What the tokens of a text declare.
fn found_of<R: Reader + Drop>(alloc: Global, bytes: &[u8], tokens: &[Token]) -> Result<R, ItemFault>
    requires size { length bytes.now ≤ most_bytes }
    requires tokens { All (IsTokenOf bytes.now) tokens.now }
    ensures ok { IfOk result (λ f. Finds R.grammar (map (lexeme bytes.now) tokens.now) (R.content_in bytes.now f)) }
    ensures names { IfOk result (R.holds_names bytes.now) }
    ensures fault { IfErr result (λ e. e ≢ NoMemory → FirstRefusal R.grammar (map (lexeme bytes.now) tokens.now) (length bytes.now) e) }
{
    let mut found = R::new(alloc);
    let mut position = R::start();
    for token in tokens {
        match R::lead(bytes, position, *token) {
            Some(next) => {
                found.add(alloc, bytes, position, *token)?;
                position = next;
            }
            None => return Err(R::refusal(position, *token)),
        }
    }
    if R::may_end(position) {
        Ok(found)
    } else {
        Err(R::end_refusal(position, bytes.len() as u32))
    }
}

/// Returns what a text of at most 16,777,216 bytes declares by a grammar, or its first fault in tokens or grammar.
///
/// Errors: `BadByte`, `OpenString`, `OpenComment` or `LongName`, the first in the text; else `Expected`
/// or `WrongType` at the first token that can't continue the grammar; `NoMemory` where memory runs out.
pub fn read<R: Reader + Drop>(alloc: Global, bytes: &[u8]) -> Result<R, ItemFault>
    requires { length bytes.now ≤ most_bytes }
    ensures ok { IfOk result (λ f. (xs : List Lexeme) × AreLexemes bytes.now xs × Finds R.grammar xs (R.content_in bytes.now f)) }
    ensures names { IfOk result (R.holds_names bytes.now) }
    ensures fault { IfErr result (λ e. e ≢ NoMemory → FirstItemFault R.grammar bytes.now e) }
{
    let tokens = tokens(alloc, bytes)?;
    let found = found_of(alloc, bytes, &tokens)?;
    Ok(found)
}
