//! What a file declares, as far as it is read.
ghost use Rattle.std.specs.Prelude.{◌≡◌, ◌≤◌, ◌++◌, ◌∷◌, [], ◌&&◌, ℕ, List, length, map, All, IfErr, OnOk};
ghost use Rattle.rg_lexer.specs.Lexeme.{Lexeme, lexeme};
ghost use Rattle.rg_lexer.specs.Tokens.{IsTokenOf};
ghost use Rattle.rg_grammar.specs.Entry.{IsNameOf};
ghost use Rattle.rg_apt.specs.Contents.{Declared, is_initial, is_true, marks};
ghost use Rattle.rg_grammar.specs.ListPosition.{list_position_in, setting_in, HoldsKey, HoldsSetting};
ghost use Rattle.rg_apt.specs.Reading.{marked, with_name, adds, mark_last, system_grammar};
ghost use Rattle.rg_apt.specs.View.{position_in, HoldsTokens, state_in, states_in, labels_in, arcs_in, found_in, IsStateOf, HoldsNames};
ghost use Rattle.rg_apt.specs.Table.{Position, TypeName, InSection, AfterEntry, Third, InList};
ghost use Rattle.rg_grammar.specs.declared.fault.ItemFault.TheVariants.{NoMemory};

use crate::position::{
    Position, Section, from_entry, from_list, from_second, from_section, from_start, from_third,
    from_type, from_word, want_at,
};
use rg_grammar::{ItemFault, ListPosition, Reader, Setting, setting_of, text_of, value_of};
use rg_lexer::{Kind, Token, Want};
use std::alloc::Global;

/// A declared state, and whether it is marked initial. A token is of type `T`: code has its span, definitions have its
/// bytes.
#[derive(Clone, Copy, Debug, PartialEq, Eq)]
pub struct StateEntry<T> {
    pub name: T,
    pub initial: bool,
}

/// The names of a declared arc. A token is of type `T`, as in `StateEntry`.
#[derive(Clone, Copy, Debug, PartialEq, Eq)]
pub struct ArcNames<T> {
    pub from: T,
    pub label: T,
    pub to: T,
}

/// What a file declares, each list in the order of the file.
#[derive(Debug, Drop)]
pub struct Found {
    pub typed: bool,
    pub states: Vec<StateEntry<Token>>,
    pub labels: Vec<Token>,
    pub arcs: Vec<ArcNames<Token>>,
}

// Whether a key marks the initial state.
fn is_initial(bytes: &[u8], key: Token) -> bool
    requires { IsTokenOf bytes.now key }
    ensures { result ≡ is_initial (lexeme bytes.now key) }
{
    text_of(bytes, key) == b"initial".as_slice()
}

// Whether a value is `true`, with quotes or without.
fn is_true(bytes: &[u8], value: Token) -> bool
    requires { IsTokenOf bytes.now value }
    ensures { result ≡ is_true (lexeme bytes.now value) }
{
    value_of(bytes, value) == b"true".as_slice()
}

// Whether an option marks the initial state.
fn marks(bytes: &[u8], setting: Setting<Token>) -> bool
    requires { HoldsSetting bytes.now setting }
    ensures { result ≡ marks (setting_in bytes.now setting) }
{
    match setting {
        Setting::Alone(key) => is_initial(bytes, key),
        Setting::Valued(key, value) => {
            let initial = is_initial(bytes, key);
            let yes = is_true(bytes, value);
            initial && yes
        }
    }
}

// Marks the last state.
fn mark_last(states: &mut Vec<StateEntry<Token>>)
    ensures found { (bytes : List ℕ) → states_in bytes states.new.items ≡ mark_last (states_in bytes states.old.items) }
    ensures names { (bytes : List ℕ) → All (IsStateOf bytes) states.old.items → All (IsStateOf bytes) states.new.items }
{
    let n = states.len();
    if n > 0 {
        states[n - 1].initial = true;
    }
}

impl Found {
    // An option is seen in a section's list.
    fn mark(&mut self, section: Section, mark: bool)
        ensures found { (bytes : List ℕ) → found_in bytes self.new ≡ marked section mark (found_in bytes self.old) }
        ensures names { (bytes : List ℕ) → HoldsNames bytes self.old → HoldsNames bytes self.new }
    {
        match section {
            Section::States => {
                if mark {
                    mark_last(&mut self.states);
                }
            }
            Section::Labels => {}
            Section::Arcs => {}
        }
    }

    // A name begins an entry or triple.
    fn name(&mut self, section: Section, name: Token) -> Result<(), ItemFault>
        ensures ok { OnOk result ((bytes : List ℕ) → found_in bytes self.new ≡ with_name section (lexeme bytes name) (found_in bytes self.old)) }
        ensures names { OnOk result ((bytes : List ℕ) → IsNameOf bytes name → HoldsNames bytes self.old → HoldsNames bytes self.new) }
        ensures err { IfErr result (λ e. e ≡ NoMemory) }
    {
        match section {
            Section::States => self.states.push(StateEntry {
                name,
                initial: false,
            })?,
            Section::Labels => self.labels.push(name)?,
            Section::Arcs => {}
        }
        Ok(())
    }

    // A token comes after `.type`.
    fn at_type(&mut self, token: Token)
        ensures found { (bytes : List ℕ) → found_in bytes self.new ≡ adds TypeName (lexeme bytes token) (found_in bytes self.old) }
        ensures names { (bytes : List ℕ) → HoldsNames bytes self.old → HoldsNames bytes self.new }
    {
        match token.kind {
            Kind::Name => self.typed = true,
            _ => {}
        }
    }

    // A token comes where an entry or triple may begin.
    fn at_entry(&mut self, section: Section, token: Token) -> Result<(), ItemFault>
        ensures ok { OnOk result ((bytes : List ℕ) → found_in bytes self.new ≡ adds (InSection section) (lexeme bytes token) (found_in bytes self.old)) }
        ensures after { OnOk result ((bytes : List ℕ) → found_in bytes self.new ≡ adds (AfterEntry section) (lexeme bytes token) (found_in bytes self.old)) }
        ensures names { OnOk result ((bytes : List ℕ) → IsTokenOf bytes token → HoldsNames bytes self.old → HoldsNames bytes self.new) }
        ensures err { IfErr result (λ e. e ≡ NoMemory) }
    {
        match token.kind {
            Kind::Name => self.name(section, token)?,
            _ => {}
        }
        Ok(())
    }

    // A token comes at the third name of a triple.
    fn at_third(&mut self, from: Token, label: Token, token: Token) -> Result<(), ItemFault>
        ensures ok { OnOk result ((bytes : List ℕ) → found_in bytes self.new ≡ adds (Third (lexeme bytes from) (lexeme bytes label)) (lexeme bytes token) (found_in bytes self.old)) }
        ensures names { OnOk result ((bytes : List ℕ) → IsTokenOf bytes token → IsNameOf bytes from → IsNameOf bytes label
            → HoldsNames bytes self.old → HoldsNames bytes self.new) }
        ensures err { IfErr result (λ e. e ≡ NoMemory) }
    {
        match token.kind {
            Kind::Name => self.arcs.push(ArcNames {
                from,
                label,
                to: token,
            })?,
            _ => {}
        }
        Ok(())
    }

    // A token comes in an option list.
    fn at_option(
        &mut self,
        bytes: &[u8],
        section: Section,
        position: ListPosition<Token>,
        token: Token,
    )
        requires token { IsTokenOf bytes.now token }
        requires key { HoldsKey bytes.now position }
        ensures found { found_in bytes.now self.new
            ≡ adds (InList section (list_position_in bytes.now position)) (lexeme bytes.now token) (found_in bytes.now self.old) }
        ensures names { HoldsNames bytes.now self.old → HoldsNames bytes.now self.new }
    {
        match setting_of(position, token) {
            Some(setting) => {
                let mark = marks(bytes, setting);
                self.mark(section, mark);
            }
            None => {}
        }
    }
}

impl Reader for Found {
    type Position = Position<Token>;

    ghost GrammarPosition = { Position Lexeme };

    ghost Content = { Declared };

    ghost grammar = { system_grammar };

    ghost grammar_position_in = { position_in };

    ghost content_in = { found_in };

    ghost holds_tokens = { HoldsTokens };

    ghost holds_names = { HoldsNames };

    fn new(alloc: Global) -> Found {
        Found {
            typed: false,
            states: Vec::new(alloc),
            labels: Vec::new(alloc),
            arcs: Vec::new(alloc),
        }
    }

    fn start() -> Position<Token> {
        Position::Start
    }

    fn lead(bytes: &[u8], position: Position<Token>, token: Token) -> Option<Position<Token>> {
        let text = text_of(bytes, token);
        match position {
            Position::Start => from_start(token, text),
            Position::TypeName => from_type(token, text),
            Position::PassedText => from_word(token),
            Position::InSection(section) => from_section(section, token, text),
            Position::AfterEntry(section) => from_entry(section, token, text),
            Position::Second(from) => from_second(from, token),
            Position::Third(from, label) => from_third(from, label, token),
            Position::InList(section, position) => from_list(section, position, token),
        }
    }

    fn add(
        &mut self,
        _alloc: Global,
        bytes: &[u8],
        position: Position<Token>,
        token: Token,
    ) -> Result<(), ItemFault> {
        match position {
            Position::Start => {}
            Position::TypeName => self.at_type(token),
            Position::PassedText => {}
            Position::InSection(section) => self.at_entry(section, token)?,
            Position::AfterEntry(section) => self.at_entry(section, token)?,
            Position::Second(_) => {}
            Position::Third(from, label) => self.at_third(from, label, token)?,
            Position::InList(section, position) => self.at_option(bytes, section, position, token),
        }
        Ok(())
    }

    fn may_end(position: Position<Token>) -> bool {
        match position {
            Position::Start => true,
            Position::InSection(_) => true,
            Position::AfterEntry(_) => true,
            _ => false,
        }
    }

    fn refusal(position: Position<Token>, token: Token) -> ItemFault {
        match position {
            Position::TypeName => match token.kind {
                Kind::Name => ItemFault::WrongType(token.from),
                _ => ItemFault::Expected(token.from, Want::Name),
            },
            _ => ItemFault::Expected(token.from, want_at(position)),
        }
    }

    fn end_refusal(position: Position<Token>, end: u32) -> ItemFault {
        ItemFault::Expected(end, want_at(position))
    }
}
