//! Positions of tokens in a system file, and the position that follows each token.
ghost use Rattle.std.specs.Prelude.{◌≡◌, ◌≤◌, ℕ, List, length, option_map, slice_range, IfSome};
ghost use Rattle.rg_lexer.specs.Lexeme.{lexeme};
ghost use Rattle.rg_apt.specs.Table.{Start, TypeName, PassedText, InSection, AfterEntry, Second, Third, InList, wanted, after_word, is_type_name, after_name, leads};
ghost use Rattle.rg_apt.specs.View.{position_in, HoldsTokens};
ghost use Rattle.rg_lexer.specs.Tokens.{IsTokenOf};
ghost use Rattle.rg_grammar.specs.Entry.{IsNameOf};
ghost use Rattle.rg_grammar.specs.ListPosition.{list_position_in, HoldsKey};

use rg_grammar::{ListPosition, ListStep, list_lead, list_wanted};
use rg_lexer::{Kind, Token, Want};

/// The sections that declare.
#[derive(Clone, Copy, Debug, PartialEq, Eq)]
pub enum Section {
    States,
    Labels,
    Arcs,
}

/// The position of a token. The names that a position holds came before it and still count. A token is of type `T`:
/// code has its span, definitions have its bytes.
#[derive(Clone, Copy, Debug, PartialEq, Eq)]
pub enum Position<T> {
    /// At the start of the file, after `.type` and a name, after a text that is passed over.
    Start,
    /// After `.type`.
    TypeName,
    /// After another word.
    PassedText,
    /// After the section's word or an option list.
    InSection(Section),
    /// Directly after an entry or triple.
    AfterEntry(Section),
    /// At the second name of a triple.
    Second(T),
    /// At the third name of a triple.
    Third(T, T),
    /// In an option list.
    InList(Section, ListPosition<T>),
}

/// Returns what is wanted at a position.
pub fn want_at(position: Position<Token>) -> Want
    ensures { (bytes : List ℕ) → result ≡ wanted (position_in bytes position) }
{
    match position {
        Position::Start => Want::Section,
        Position::TypeName => Want::Name,
        Position::PassedText => Want::Text,
        Position::InSection(_) | Position::AfterEntry(_) => Want::Name,
        Position::Second(_) | Position::Third(_, _) => Want::Name,
        Position::InList(_, position) => list_wanted(position),
    }
}

// Where a word leads.
fn after_word(text: &[u8]) -> Position<Token>
    ensures leads { (bytes : List ℕ) → position_in bytes result ≡ after_word text.now }
    ensures holds { (bytes : List ℕ) → HoldsTokens bytes result }
{
    if text == b".type".as_slice() {
        Position::TypeName
    } else if text == b".states".as_slice() {
        Position::InSection(Section::States)
    } else if text == b".labels".as_slice() {
        Position::InSection(Section::Labels)
    } else if text == b".arcs".as_slice() {
        Position::InSection(Section::Arcs)
    } else {
        Position::PassedText
    }
}

// Where a name leads that begins an entry or triple.
fn after_name(section: Section, name: Token) -> Position<Token>
    ensures leads { (bytes : List ℕ) → position_in bytes result ≡ after_name section (lexeme bytes name) }
    ensures holds { (bytes : List ℕ) → IsNameOf bytes name → HoldsTokens bytes result }
{
    match section {
        Section::States => Position::AfterEntry(Section::States),
        Section::Labels => Position::AfterEntry(Section::Labels),
        Section::Arcs => Position::Second(name),
    }
}

/// Returns where a token leads from a position where an entry may begin.
pub fn from_section(section: Section, token: Token, text: &[u8]) -> Option<Position<Token>>
    ensures leads { (bytes : List ℕ) → slice_range bytes token.from token.to ≡ text.now
        → option_map (position_in bytes) result ≡ leads (InSection section) (lexeme bytes token) }
    ensures holds { (bytes : List ℕ) → IsTokenOf bytes token → IfSome result (HoldsTokens bytes) }
{
    match token.kind {
        Kind::Name => Some(after_name(section, token)),
        Kind::Word => Some(after_word(text)),
        _ => None,
    }
}

/// Returns where a token leads directly after an entry or triple.
pub fn from_entry(section: Section, token: Token, text: &[u8]) -> Option<Position<Token>>
    ensures leads { (bytes : List ℕ) → slice_range bytes token.from token.to ≡ text.now
        → option_map (position_in bytes) result ≡ leads (AfterEntry section) (lexeme bytes token) }
    ensures holds { (bytes : List ℕ) → IsTokenOf bytes token → IfSome result (HoldsTokens bytes) }
{
    match token.kind {
        Kind::Name => Some(after_name(section, token)),
        Kind::Word => Some(after_word(text)),
        Kind::LeftBracket => Some(Position::InList(section, ListPosition::FirstKey)),
        _ => None,
    }
}

fn is_type_name(text: &[u8]) -> bool
    ensures { result ≡ is_type_name text.now }
{
    text == b"LTS".as_slice() || text == b"TS".as_slice()
}

/// Returns where a token leads after `.type`.
pub fn from_type(token: Token, text: &[u8]) -> Option<Position<Token>>
    ensures leads { (bytes : List ℕ) → slice_range bytes token.from token.to ≡ text.now
        → option_map (position_in bytes) result ≡ leads TypeName (lexeme bytes token) }
    ensures holds { (bytes : List ℕ) → IsTokenOf bytes token → IfSome result (HoldsTokens bytes) }
{
    match token.kind {
        Kind::Name => {
            if is_type_name(text) {
                Some(Position::Start)
            } else {
                None
            }
        }
        _ => None,
    }
}

/// Returns where a token leads in an option list.
pub fn from_list(
    section: Section,
    position: ListPosition<Token>,
    token: Token,
) -> Option<Position<Token>>
    ensures leads { (bytes : List ℕ) → option_map (position_in bytes) result
        ≡ leads (InList section (list_position_in bytes position)) (lexeme bytes token) }
    ensures holds { (bytes : List ℕ) → IsTokenOf bytes token → HoldsKey bytes position → IfSome result (HoldsTokens bytes) }
{
    match list_lead(position, token) {
        Some(ListStep::On(next)) => Some(Position::InList(section, next)),
        Some(ListStep::Closed) => Some(Position::InSection(section)),
        None => None,
    }
}

/// Returns where a token leads at the start and after a passed-over text.
pub fn from_start(token: Token, text: &[u8]) -> Option<Position<Token>>
    ensures leads { (bytes : List ℕ) → slice_range bytes token.from token.to ≡ text.now
        → option_map (position_in bytes) result ≡ leads Start (lexeme bytes token) }
    ensures holds { (bytes : List ℕ) → IsTokenOf bytes token → IfSome result (HoldsTokens bytes) }
{
    match token.kind {
        Kind::Word => Some(after_word(text)),
        _ => None,
    }
}

/// Returns where a token leads after a word that isn't a section's.
pub fn from_word(token: Token) -> Option<Position<Token>>
    ensures leads { (bytes : List ℕ) → option_map (position_in bytes) result ≡ leads PassedText (lexeme bytes token) }
    ensures holds { (bytes : List ℕ) → IsTokenOf bytes token → IfSome result (HoldsTokens bytes) }
{
    match token.kind {
        Kind::Text => Some(Position::Start),
        _ => None,
    }
}

/// Returns where a token leads at the second name of a triple.
pub fn from_second(from: Token, token: Token) -> Option<Position<Token>>
    ensures leads { (bytes : List ℕ) → option_map (position_in bytes) result ≡ leads (Second (lexeme bytes from)) (lexeme bytes token) }
    ensures holds { (bytes : List ℕ) → IsTokenOf bytes token → IsNameOf bytes from → IfSome result (HoldsTokens bytes) }
{
    match token.kind {
        Kind::Name => Some(Position::Third(from, token)),
        _ => None,
    }
}

/// Returns where a token leads at the third name of a triple.
pub fn from_third(from: Token, label: Token, token: Token) -> Option<Position<Token>>
    ensures leads { (bytes : List ℕ) → option_map (position_in bytes) result ≡ leads (Third (lexeme bytes from) (lexeme bytes label)) (lexeme bytes token) }
    ensures holds { (bytes : List ℕ) → IsTokenOf bytes token → IfSome result (HoldsTokens bytes) }
{
    match token.kind {
        Kind::Name => Some(Position::AfterEntry(Section::Arcs)),
        _ => None,
    }
}
