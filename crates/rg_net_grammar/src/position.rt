//! Positions of tokens in a net file, and the position that follows each token.
ghost use Rattle.std.specs.Prelude.{◌≡◌, ◌≤◌, ℕ, List, length, option_map, slice_range, IfSome};
ghost use Rattle.rg_lexer.specs.Lexeme.{lexeme};
ghost use Rattle.rg_lexer.specs.Tokens.{IsTokenOf};
ghost use Rattle.rg_grammar.specs.ListPosition.{list_position_in, HoldsKey};
ghost use Rattle.rg_net_grammar.specs.Table.{Start, TypeName, PassedText, InSection, AfterEntry, InList, InFlows, AfterFlowName, BeforeSet, AfterPre, wanted, after_word, is_type_name};
ghost use Rattle.rg_net_grammar.specs.Reading.{leads};
ghost use Rattle.rg_net_grammar.specs.View.{position_in, HoldsTokens};

use crate::set_position::{SetPosition, Side, set_wanted};
use rg_grammar::{ListPosition, ListStep, list_lead, list_wanted};
use rg_lexer::{Kind, Token, Want};

/// The sections of entries.
#[derive(Clone, Copy, Debug, PartialEq, Eq)]
pub enum Section {
    Places,
    Transitions,
}

/// The position of a token. The tokens that a position holds came before it and still count. A token is of type `T`:
/// code has its span, definitions have its bytes.
#[derive(Clone, Copy, Debug, PartialEq, Eq)]
pub enum Position<T> {
    /// At the start of the file, after `.type` and a name, after a text that is passed over, after the marking's set.
    Start,
    /// After `.type`.
    TypeName,
    /// After another word.
    PassedText,
    /// After the section's word or an option list.
    InSection(Section),
    /// Directly after an entry.
    AfterEntry(Section),
    /// In an option list.
    InList(Section, ListPosition<T>),
    /// Where a flow may begin.
    InFlows,
    /// After the name of a flow's transition.
    AfterFlowName,
    /// Where a set is expected.
    BeforeSet(Side),
    /// In a set.
    InSet(Side, SetPosition<T>),
    /// After the first set of a flow.
    AfterPre,
}

/// Returns what is wanted at a position.
pub fn want_at(position: Position<Token>) -> Want
    ensures { (bytes : List ℕ) → result ≡ wanted (position_in bytes position) }
{
    match position {
        Position::Start => Want::Section,
        Position::TypeName => Want::Name,
        Position::PassedText => Want::Text,
        Position::InSection(_) | Position::AfterEntry(_) => Want::Name,
        Position::InList(_, position) => list_wanted(position),
        Position::InFlows => Want::Name,
        Position::AfterFlowName => Want::Colon,
        Position::BeforeSet(_) => Want::Set,
        Position::InSet(_, position) => set_wanted(position),
        Position::AfterPre => Want::Arrow,
    }
}

// Where a word leads.
fn after_word(text: &[u8]) -> Position<Token>
    ensures leads { (bytes : List ℕ) → position_in bytes result ≡ after_word text.now }
    ensures holds { (bytes : List ℕ) → HoldsTokens bytes result }
{
    if text == b".type".as_slice() {
        Position::TypeName
    } else if text == b".places".as_slice() {
        Position::InSection(Section::Places)
    } else if text == b".transitions".as_slice() {
        Position::InSection(Section::Transitions)
    } else if text == b".flows".as_slice() {
        Position::InFlows
    } else if text == b".initial_marking".as_slice() {
        Position::BeforeSet(Side::Marking)
    } else {
        Position::PassedText
    }
}

/// Returns where a token leads at the start, after a passed-over text and after the marking's set.
pub fn from_start(token: Token, text: &[u8]) -> Option<Position<Token>>
    ensures leads { (bytes : List ℕ) → slice_range bytes token.from token.to ≡ text.now
        → option_map (position_in bytes) result ≡ leads Start (lexeme bytes token) }
    ensures holds { (bytes : List ℕ) → IfSome result (HoldsTokens bytes) }
{
    match token.kind {
        Kind::Word => Some(after_word(text)),
        _ => None,
    }
}

fn is_type_name(text: &[u8]) -> bool
    ensures { result ≡ is_type_name text.now }
{
    text == b"PN".as_slice() || text == b"LPN".as_slice()
}

/// Returns where a token leads after `.type`.
pub fn from_type(token: Token, text: &[u8]) -> Option<Position<Token>>
    ensures leads { (bytes : List ℕ) → slice_range bytes token.from token.to ≡ text.now
        → option_map (position_in bytes) result ≡ leads TypeName (lexeme bytes token) }
    ensures holds { (bytes : List ℕ) → IfSome result (HoldsTokens bytes) }
{
    match token.kind {
        Kind::Name => {
            if is_type_name(text) {
                Some(Position::Start)
            } else {
                None
            }
        }
        _ => None,
    }
}

/// Returns where a token leads after a word that isn't a section's.
pub fn from_word(token: Token) -> Option<Position<Token>>
    ensures leads { (bytes : List ℕ) → option_map (position_in bytes) result ≡ leads PassedText (lexeme bytes token) }
    ensures holds { (bytes : List ℕ) → IfSome result (HoldsTokens bytes) }
{
    match token.kind {
        Kind::Text => Some(Position::Start),
        _ => None,
    }
}

/// Returns where a token leads from a position where an entry may begin.
pub fn from_section(section: Section, token: Token, text: &[u8]) -> Option<Position<Token>>
    ensures leads { (bytes : List ℕ) → slice_range bytes token.from token.to ≡ text.now
        → option_map (position_in bytes) result ≡ leads (InSection section) (lexeme bytes token) }
    ensures holds { (bytes : List ℕ) → IfSome result (HoldsTokens bytes) }
{
    match token.kind {
        Kind::Name => Some(Position::AfterEntry(section)),
        Kind::Word => Some(after_word(text)),
        _ => None,
    }
}

/// Returns where a token leads directly after an entry.
pub fn from_entry(section: Section, token: Token, text: &[u8]) -> Option<Position<Token>>
    ensures leads { (bytes : List ℕ) → slice_range bytes token.from token.to ≡ text.now
        → option_map (position_in bytes) result ≡ leads (AfterEntry section) (lexeme bytes token) }
    ensures holds { (bytes : List ℕ) → IfSome result (HoldsTokens bytes) }
{
    match token.kind {
        Kind::Name => Some(Position::AfterEntry(section)),
        Kind::Word => Some(after_word(text)),
        Kind::LeftBracket => Some(Position::InList(section, ListPosition::FirstKey)),
        _ => None,
    }
}

/// Returns where a token leads in an option list.
pub fn from_list(
    section: Section,
    position: ListPosition<Token>,
    token: Token,
) -> Option<Position<Token>>
    ensures leads { (bytes : List ℕ) → option_map (position_in bytes) result
        ≡ leads (InList section (list_position_in bytes position)) (lexeme bytes token) }
    ensures holds { (bytes : List ℕ) → IsTokenOf bytes token → HoldsKey bytes position → IfSome result (HoldsTokens bytes) }
{
    match list_lead(position, token) {
        Some(ListStep::On(next)) => Some(Position::InList(section, next)),
        Some(ListStep::Closed) => Some(Position::InSection(section)),
        None => None,
    }
}

/// Returns where a token leads from a position where a flow may begin.
pub fn from_flows(token: Token, text: &[u8]) -> Option<Position<Token>>
    ensures leads { (bytes : List ℕ) → slice_range bytes token.from token.to ≡ text.now
        → option_map (position_in bytes) result ≡ leads InFlows (lexeme bytes token) }
    ensures holds { (bytes : List ℕ) → IfSome result (HoldsTokens bytes) }
{
    match token.kind {
        Kind::Name => Some(Position::AfterFlowName),
        Kind::Word => Some(after_word(text)),
        _ => None,
    }
}

/// Returns where a token leads after a flow's name.
pub fn from_flow_name(token: Token) -> Option<Position<Token>>
    ensures leads { (bytes : List ℕ) → option_map (position_in bytes) result ≡ leads AfterFlowName (lexeme bytes token) }
    ensures holds { (bytes : List ℕ) → IfSome result (HoldsTokens bytes) }
{
    match token.kind {
        Kind::Colon => Some(Position::BeforeSet(Side::Pre)),
        _ => None,
    }
}

/// Returns where a token leads after the first set of a flow.
pub fn from_pre(token: Token) -> Option<Position<Token>>
    ensures leads { (bytes : List ℕ) → option_map (position_in bytes) result ≡ leads AfterPre (lexeme bytes token) }
    ensures holds { (bytes : List ℕ) → IfSome result (HoldsTokens bytes) }
{
    match token.kind {
        Kind::Arrow => Some(Position::BeforeSet(Side::Post)),
        _ => None,
    }
}

/// Returns the position after a token where a set is expected.
pub fn from_before_set(side: Side, token: Token) -> Option<Position<Token>>
    ensures leads { (bytes : List ℕ) → option_map (position_in bytes) result ≡ leads (BeforeSet side) (lexeme bytes token) }
    ensures holds { (bytes : List ℕ) → IfSome result (HoldsTokens bytes) }
{
    match token.kind {
        Kind::LeftBrace => Some(Position::InSet(side, SetPosition::FirstMember)),
        _ => None,
    }
}
