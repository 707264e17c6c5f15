//! Positions of tokens in a set, and the position that follows each token.
ghost use Rattle.std.specs.Prelude.{◌≡◌, ℕ, List, option_map, IfSome};
ghost use Rattle.rg_lexer.specs.Lexeme.{lexeme};
ghost use Rattle.rg_lexer.specs.Tokens.{IsTokenOf};
ghost use Rattle.rg_lexer.specs.declared.token.Kind.TheVariants.{Star};
ghost use Rattle.rg_grammar.specs.Entry.{IsNameOf};
ghost use Rattle.rg_net_grammar.specs.View.{IsNumberOf, set_position_in, position_in, HoldsMember, HoldsTokens};
ghost use Rattle.rg_net_grammar.specs.Table.{Side, FirstMember, NextMember, AfterName, AfterStar, AfterMember, InSet, set_wanted, is_digits, after_set, set_leads_by, refusal_by};

use crate::position::Position;
use rg_grammar::{ItemFault, text_of};
use rg_lexer::{Kind, Token, Want};

/// The set that is read: the first or second one of a flow, or that of the marking.
#[derive(Clone, Copy, Debug, PartialEq, Eq)]
pub enum Side {
    Pre,
    Post,
    Marking,
}

/// The position of a token in a set. The names that a position holds came before it and still count. A token is of type
/// `T`: code has its span, definitions have its bytes.
#[derive(Clone, Copy, Debug, PartialEq, Eq)]
pub enum SetPosition<T> {
    /// After `{`.
    FirstMember,
    /// After `,`.
    NextMember,
    /// After a member's first name.
    AfterName(T),
    /// After a number and `*`.
    AfterStar(T),
    /// After a member with a number.
    AfterMember,
}

/// Returns what is wanted at a position of a set.
pub fn set_wanted(position: SetPosition<Token>) -> Want
    ensures { (bytes : List ℕ) → result ≡ set_wanted (set_position_in bytes position) }
{
    match position {
        SetPosition::FirstMember | SetPosition::NextMember => Want::Member,
        SetPosition::AfterName(_) | SetPosition::AfterMember => Want::CloseSet,
        SetPosition::AfterStar(_) => Want::Member,
    }
}

// Where the closing bracket of a set leads.
fn after_set(side: Side) -> Position<Token>
    ensures leads { (bytes : List ℕ) → position_in bytes result ≡ after_set side }
    ensures holds { (bytes : List ℕ) → HoldsTokens bytes result }
{
    match side {
        Side::Pre => Position::AfterPre,
        Side::Post => Position::InFlows,
        Side::Marking => Position::Start,
    }
}

// Where a token leads after the opening bracket of a set.
fn from_brace(side: Side, token: Token) -> Option<Position<Token>>
    ensures leads { (bytes : List ℕ) → option_map (position_in bytes) result ≡ set_leads_by side FirstMember token.kind (lexeme bytes token) }
    ensures holds { (bytes : List ℕ) → IsTokenOf bytes token → IfSome result (HoldsTokens bytes) }
{
    match token.kind {
        Kind::Name => Some(Position::InSet(side, SetPosition::AfterName(token))),
        Kind::RightBrace => Some(after_set(side)),
        _ => None,
    }
}

// Where a token leads after a comma in a set.
fn from_comma(side: Side, token: Token) -> Option<Position<Token>>
    ensures leads { (bytes : List ℕ) → option_map (position_in bytes) result ≡ set_leads_by side NextMember token.kind (lexeme bytes token) }
    ensures holds { (bytes : List ℕ) → IsTokenOf bytes token → IfSome result (HoldsTokens bytes) }
{
    match token.kind {
        Kind::Name => Some(Position::InSet(side, SetPosition::AfterName(token))),
        _ => None,
    }
}

// Whether a name is a number.
fn is_number(bytes: &[u8], name: Token) -> bool
    requires { IsTokenOf bytes.now name }
    ensures { result ≡ is_digits (lexeme bytes.now name).text }
{
    text_of(bytes, name).iter().all(|b| b.is_ascii_digit())
}

// Where `*` leads after a member's first name.
fn from_star(bytes: &[u8], side: Side, name: Token) -> Option<Position<Token>>
    requires { IsNameOf bytes.now name }
    ensures leads { (x : Token) → option_map (position_in bytes.now) result
        ≡ set_leads_by side (AfterName (lexeme bytes.now name)) Star (lexeme bytes.now x) }
    ensures holds { IfSome result (HoldsTokens bytes.now) }
{
    if is_number(bytes, name) {
        Some(Position::InSet(side, SetPosition::AfterStar(name)))
    } else {
        None
    }
}

// Where a token leads after a member's first name.
fn from_name(bytes: &[u8], side: Side, name: Token, token: Token) -> Option<Position<Token>>
    requires { IsNameOf bytes.now name }
    ensures leads { option_map (position_in bytes.now) result
        ≡ set_leads_by side (AfterName (lexeme bytes.now name)) token.kind (lexeme bytes.now token) }
    ensures holds { IfSome result (HoldsTokens bytes.now) }
{
    match token.kind {
        Kind::Star => from_star(bytes, side, name),
        Kind::Comma => Some(Position::InSet(side, SetPosition::NextMember)),
        Kind::RightBrace => Some(after_set(side)),
        _ => None,
    }
}

// Where a token leads after a number and `*`.
fn from_number(side: Side, number: Token, token: Token) -> Option<Position<Token>>
    ensures leads { (bytes : List ℕ) → option_map (position_in bytes) result
        ≡ set_leads_by side (AfterStar (lexeme bytes number)) token.kind (lexeme bytes token) }
    ensures holds { (bytes : List ℕ) → IfSome result (HoldsTokens bytes) }
{
    match token.kind {
        Kind::Name => Some(Position::InSet(side, SetPosition::AfterMember)),
        _ => None,
    }
}

// Where a token leads after a member with a number.
fn from_member(side: Side, token: Token) -> Option<Position<Token>>
    ensures leads { (bytes : List ℕ) → option_map (position_in bytes) result ≡ set_leads_by side AfterMember token.kind (lexeme bytes token) }
    ensures holds { (bytes : List ℕ) → IfSome result (HoldsTokens bytes) }
{
    match token.kind {
        Kind::Comma => Some(Position::InSet(side, SetPosition::NextMember)),
        Kind::RightBrace => Some(after_set(side)),
        _ => None,
    }
}

/// Returns where a token leads in a set.
pub fn from_set(
    bytes: &[u8],
    side: Side,
    position: SetPosition<Token>,
    token: Token,
) -> Option<Position<Token>>
    requires token { IsTokenOf bytes.now token }
    requires held { HoldsMember bytes.now position }
    ensures leads { option_map (position_in bytes.now) result
        ≡ set_leads_by side (set_position_in bytes.now position) token.kind (lexeme bytes.now token) }
    ensures holds { IfSome result (HoldsTokens bytes.now) }
{
    match position {
        SetPosition::FirstMember => from_brace(side, token),
        SetPosition::NextMember => from_comma(side, token),
        SetPosition::AfterName(name) => from_name(bytes, side, name, token),
        SetPosition::AfterStar(number) => from_number(side, number, token),
        SetPosition::AfterMember => from_member(side, token),
    }
}

/// Returns the fault of a token that isn't allowed at a position of a set.
pub fn set_refusal(position: SetPosition<Token>, token: Token) -> ItemFault
    ensures { (bytes : List ℕ) (side : Side) → result ≡ refusal_by (InSet side (set_position_in bytes position)) token.kind token.from }
{
    match position {
        SetPosition::AfterName(name) => match token.kind {
            Kind::Star => ItemFault::Expected(name.from, Want::Number),
            _ => ItemFault::Expected(token.from, Want::CloseSet),
        },
        _ => ItemFault::Expected(token.from, set_wanted(position)),
    }
}
