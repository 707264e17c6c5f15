//! Positions of tokens in an option list, the position that follows each token, and the option that it completes.
ghost use Rattle.std.specs.Prelude.{◌≡◌, ℕ, List, option_map, IfSome};
ghost use Rattle.rg_lexer.specs.Lexeme.{lexeme};
ghost use Rattle.rg_lexer.specs.Tokens.{IsTokenOf};
ghost use Rattle.rg_grammar.specs.Entry.{IsNameOf};
ghost use Rattle.rg_grammar.specs.ListPosition.{FirstKey, NextKey, AfterKey, Value, AfterValue, list_wanted, list_leads, completed, list_position_in, list_step_in, setting_in, HoldsKey, StepHoldsKey, HoldsSetting};

use rg_lexer::{Kind, Token, Want};

/// The position of a token in an option list: `[`, options separated by commas, `]`. A key that a position holds came
/// before it and still counts. A token is of type `T`: code has its span, definitions have its bytes.
#[derive(Clone, Copy, Debug, PartialEq, Eq)]
pub enum ListPosition<T> {
    /// After `[`.
    FirstKey,
    /// After `,`.
    NextKey,
    /// After a key.
    AfterKey(T),
    /// After a key and `=`.
    Value(T),
    /// After a value.
    AfterValue,
}

/// The position that follows a token that is allowed in an option list.
#[derive(Clone, Copy, Debug, PartialEq, Eq)]
pub enum ListStep<T> {
    /// To another position of the list.
    On(ListPosition<T>),
    /// The list is closed.
    Closed,
}

/// An option: a key, alone or with a value, which is a text or a name.
#[derive(Clone, Copy, Debug, PartialEq, Eq)]
pub enum Setting<T> {
    Alone(T),
    Valued(T, T),
}

/// Returns what is wanted at a position of an option list.
pub fn list_wanted(position: ListPosition<Token>) -> Want
    ensures { (bytes : List ℕ) → result ≡ list_wanted (list_position_in bytes position) }
{
    match position {
        ListPosition::FirstKey | ListPosition::NextKey => Want::Key,
        ListPosition::AfterKey(_) | ListPosition::AfterValue => Want::CloseList,
        ListPosition::Value(_) => Want::Value,
    }
}

// Where a token leads after `[`.
fn from_bracket(token: Token) -> Option<ListStep<Token>>
    ensures leads { (bytes : List ℕ) → option_map (list_step_in bytes) result ≡ list_leads FirstKey (lexeme bytes token) }
    ensures holds { (bytes : List ℕ) → IsTokenOf bytes token → IfSome result (StepHoldsKey bytes) }
{
    match token.kind {
        Kind::Name => Some(ListStep::On(ListPosition::AfterKey(token))),
        Kind::RightBracket => Some(ListStep::Closed),
        _ => None,
    }
}

// Where a token leads after a comma.
fn from_comma(token: Token) -> Option<ListStep<Token>>
    ensures leads { (bytes : List ℕ) → option_map (list_step_in bytes) result ≡ list_leads NextKey (lexeme bytes token) }
    ensures holds { (bytes : List ℕ) → IsTokenOf bytes token → IfSome result (StepHoldsKey bytes) }
{
    match token.kind {
        Kind::Name => Some(ListStep::On(ListPosition::AfterKey(token))),
        _ => None,
    }
}

// Where a token leads after a key.
fn from_key(key: Token, token: Token) -> Option<ListStep<Token>>
    ensures leads { (bytes : List ℕ) → option_map (list_step_in bytes) result ≡ list_leads (AfterKey (lexeme bytes key)) (lexeme bytes token) }
    ensures holds { (bytes : List ℕ) → IsNameOf bytes key → IfSome result (StepHoldsKey bytes) }
{
    match token.kind {
        Kind::Equals => Some(ListStep::On(ListPosition::Value(key))),
        Kind::Comma => Some(ListStep::On(ListPosition::NextKey)),
        Kind::RightBracket => Some(ListStep::Closed),
        _ => None,
    }
}

// Where a token leads after `=`.
fn from_equals(key: Token, token: Token) -> Option<ListStep<Token>>
    ensures leads { (bytes : List ℕ) → option_map (list_step_in bytes) result ≡ list_leads (Value (lexeme bytes key)) (lexeme bytes token) }
    ensures holds { (bytes : List ℕ) → IfSome result (StepHoldsKey bytes) }
{
    match token.kind {
        Kind::Text => Some(ListStep::On(ListPosition::AfterValue)),
        Kind::Name => Some(ListStep::On(ListPosition::AfterValue)),
        _ => None,
    }
}

// Where a token leads after a value.
fn from_value(token: Token) -> Option<ListStep<Token>>
    ensures leads { (bytes : List ℕ) → option_map (list_step_in bytes) result ≡ list_leads AfterValue (lexeme bytes token) }
    ensures holds { (bytes : List ℕ) → IfSome result (StepHoldsKey bytes) }
{
    match token.kind {
        Kind::Comma => Some(ListStep::On(ListPosition::NextKey)),
        Kind::RightBracket => Some(ListStep::Closed),
        _ => None,
    }
}

/// Returns the position after a token of an option list, or None if the token isn't allowed.
pub fn list_lead(position: ListPosition<Token>, token: Token) -> Option<ListStep<Token>>
    ensures leads { (bytes : List ℕ) → option_map (list_step_in bytes) result ≡ list_leads (list_position_in bytes position) (lexeme bytes token) }
    ensures holds { (bytes : List ℕ) → IsTokenOf bytes token → HoldsKey bytes position → IfSome result (StepHoldsKey bytes) }
{
    match position {
        ListPosition::FirstKey => from_bracket(token),
        ListPosition::NextKey => from_comma(token),
        ListPosition::AfterKey(key) => from_key(key, token),
        ListPosition::Value(key) => from_equals(key, token),
        ListPosition::AfterValue => from_value(token),
    }
}

// The option that a token completes after its key.
fn alone(key: Token, token: Token) -> Option<Setting<Token>>
    ensures setting { (bytes : List ℕ) → option_map (setting_in bytes) result ≡ completed (AfterKey (lexeme bytes key)) (lexeme bytes token) }
    ensures holds { (bytes : List ℕ) → IsNameOf bytes key → IfSome result (HoldsSetting bytes) }
{
    match token.kind {
        Kind::Comma => Some(Setting::Alone(key)),
        Kind::RightBracket => Some(Setting::Alone(key)),
        _ => None,
    }
}

// The option that a token completes after `=`.
fn setting_of_value(key: Token, token: Token) -> Option<Setting<Token>>
    ensures setting { (bytes : List ℕ) → option_map (setting_in bytes) result ≡ completed (Value (lexeme bytes key)) (lexeme bytes token) }
    ensures holds { (bytes : List ℕ) → IsTokenOf bytes token → IsNameOf bytes key → IfSome result (HoldsSetting bytes) }
{
    match token.kind {
        Kind::Text => Some(Setting::Valued(key, token)),
        Kind::Name => Some(Setting::Valued(key, token)),
        _ => None,
    }
}

/// Returns the option that a token completes at a position of an option list, if it completes one.
pub fn setting_of(position: ListPosition<Token>, token: Token) -> Option<Setting<Token>>
    ensures setting { (bytes : List ℕ) → option_map (setting_in bytes) result ≡ completed (list_position_in bytes position) (lexeme bytes token) }
    ensures holds { (bytes : List ℕ) → IsTokenOf bytes token → HoldsKey bytes position → IfSome result (HoldsSetting bytes) }
{
    match position {
        ListPosition::FirstKey => None,
        ListPosition::NextKey => None,
        ListPosition::AfterKey(key) => alone(key, token),
        ListPosition::Value(key) => setting_of_value(key, token),
        ListPosition::AfterValue => None,
    }
}
