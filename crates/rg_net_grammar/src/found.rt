//! What a net file declares, as far as it is read.
ghost use Rattle.std.specs.Prelude.{◌≡◌, ◌≤◌, ◌++◌, ◌∷◌, [], ℕ, List, Option, length, map, option_map, All, IfSome, IfErr, OnOk};
ghost use Rattle.rg_lexer.specs.Lexeme.{Lexeme, lexeme};
ghost use Rattle.rg_lexer.specs.Tokens.{IsTokenOf};
ghost use Rattle.rg_grammar.specs.declared.list_position.Setting.{Setting};
ghost use Rattle.rg_grammar.specs.Entry.{IsNameOf, IsValueOf};
ghost use Rattle.rg_grammar.specs.Last.{change_last};
ghost use Rattle.rg_grammar.specs.ListPosition.{list_position_in, setting_in, HoldsKey, HoldsSetting};
ghost use Rattle.rg_net_grammar.specs.Contents.{Declared, label_in};
ghost use Rattle.rg_net_grammar.specs.Reading.{with_value, with_setting, with_name, with_pre, with_post, with_member, member_by, adds, net_grammar};
ghost use Rattle.rg_net_grammar.specs.Table.{Position, TypeName, InSection, AfterEntry, InList, InFlows, InSet, AfterName, AfterStar};
ghost use Rattle.rg_net_grammar.specs.View.{set_position_in, position_in, HoldsMember, HoldsTokens, member_in, members_in, flows_in, transition_in, found_in, IsNumberOf, IsMemberOf, IsFlowOf, IsTransitionOf, HoldsNames};
ghost use Rattle.rg_grammar.specs.declared.fault.ItemFault.TheVariants.{NoMemory};

use crate::position::{
    Position, Section, from_before_set, from_entry, from_flow_name, from_flows, from_list,
    from_pre, from_section, from_start, from_type, from_word, want_at,
};
use crate::set_position::{SetPosition, Side, from_set, set_refusal};
use rg_grammar::{ItemFault, ListPosition, Reader, Setting, setting_of, text_of};
use rg_lexer::{Kind, Token, Want};
use std::alloc::Global;

/// A member of a set: the number before the name of a place, if there is one, and the name. A token is of type `T`: code
/// has its span, definitions have its bytes.
#[derive(Clone, Copy, Debug, PartialEq, Eq)]
pub struct Member<T> {
    pub number: Option<T>,
    pub place: T,
}

/// A declared flow: the name of its transition, and the members of its two sets.
#[derive(Debug, Drop)]
pub struct FoundFlow {
    pub name: Token,
    pub pre: Vec<Member<Token>>,
    pub post: Vec<Member<Token>>,
}

/// A declared transition, and the first value that its options give to `label`: a text or a name. A token is of type
/// `T`, as in `Member`.
#[derive(Clone, Copy, Debug, PartialEq, Eq)]
pub struct Transition<T> {
    pub name: T,
    pub label: Option<T>,
}

/// What a net file declares, each list in the order of the file. `marking` has the members of all its
/// initial markings.
#[derive(Debug, Drop)]
pub struct Found {
    pub typed: bool,
    pub places: Vec<Token>,
    pub transitions: Vec<Transition<Token>>,
    pub flows: Vec<FoundFlow>,
    pub marking: Vec<Member<Token>>,
}

// The value that an option gives to a label, if it gives one.
fn label_in(bytes: &[u8], setting: Setting<Token>) -> Option<Token>
    requires { HoldsSetting bytes.now setting }
    ensures label { option_map (lexeme bytes.now) result ≡ label_in (setting_in bytes.now setting) }
    ensures value { IfSome result (IsValueOf bytes.now) }
{
    match setting {
        Setting::Alone(_) => None,
        Setting::Valued(key, value) => {
            if text_of(bytes, key) == b"label".as_slice() {
                Some(value)
            } else {
                None
            }
        }
    }
}

// Gives the last transition a label, if there is one and it has none yet.
fn label_last(transitions: &mut Vec<Transition<Token>>, label: Option<Token>)
    ensures found { (bytes : List ℕ) (setting : Setting Lexeme) → option_map (lexeme bytes) label ≡ label_in setting
        → map (transition_in bytes) transitions.new.items ≡ change_last (with_value setting) (map (transition_in bytes) transitions.old.items) }
    ensures names { (bytes : List ℕ) → IfSome label (IsValueOf bytes)
        → All (IsTransitionOf bytes) transitions.old.items → All (IsTransitionOf bytes) transitions.new.items }
{
    let n = transitions.len();
    if n > 0 {
        let before = transitions[n - 1].label;
        transitions[n - 1].label = before.or(label);
    }
}

// The member that a token completes after its name.
fn alone(name: Token, token: Token) -> Option<Member<Token>>
    ensures member { (bytes : List ℕ) → option_map (member_in bytes) result ≡ member_by (AfterName (lexeme bytes name)) token.kind (lexeme bytes token) }
    ensures holds { (bytes : List ℕ) → IsNameOf bytes name → IfSome result (IsMemberOf bytes) }
{
    let member = Member {
        number: None,
        place: name,
    };
    match token.kind {
        Kind::Comma => Some(member),
        Kind::RightBrace => Some(member),
        _ => None,
    }
}

// The member that a token completes after its number and `*`.
fn member_of_count(number: Token, token: Token) -> Option<Member<Token>>
    ensures member { (bytes : List ℕ) → option_map (member_in bytes) result ≡ member_by (AfterStar (lexeme bytes number)) token.kind (lexeme bytes token) }
    ensures holds { (bytes : List ℕ) → IsTokenOf bytes token → IsNumberOf bytes number → IfSome result (IsMemberOf bytes) }
{
    match token.kind {
        Kind::Name => Some(Member {
            number: Some(number),
            place: token,
        }),
        _ => None,
    }
}

// The member that a token completes at a position of a set, if it completes one.
fn member_of(position: SetPosition<Token>, token: Token) -> Option<Member<Token>>
    ensures member { (bytes : List ℕ) → option_map (member_in bytes) result ≡ member_by (set_position_in bytes position) token.kind (lexeme bytes token) }
    ensures holds { (bytes : List ℕ) → IsTokenOf bytes token → HoldsMember bytes position → IfSome result (IsMemberOf bytes) }
{
    match position {
        SetPosition::AfterName(name) => alone(name, token),
        SetPosition::AfterStar(number) => member_of_count(number, token),
        _ => None,
    }
}

// Adds a member to the first set of the last flow.
fn add_pre(flows: &mut Vec<FoundFlow>, member: Member<Token>) -> Result<(), ItemFault>
    ensures ok { OnOk result ((bytes : List ℕ) → flows_in bytes flows.new.items ≡ change_last (with_pre (member_in bytes member)) (flows_in bytes flows.old.items)) }
    ensures names { OnOk result ((bytes : List ℕ) → IsMemberOf bytes member → All (IsFlowOf bytes) flows.old.items → All (IsFlowOf bytes) flows.new.items) }
    ensures err { IfErr result (λ e. e ≡ NoMemory) }
{
    let n = flows.len();
    if n > 0 {
        flows[n - 1].pre.push(member)?;
    }
    Ok(())
}

// Adds a member to the second set of the last flow.
fn add_post(flows: &mut Vec<FoundFlow>, member: Member<Token>) -> Result<(), ItemFault>
    ensures ok { OnOk result ((bytes : List ℕ) → flows_in bytes flows.new.items ≡ change_last (with_post (member_in bytes member)) (flows_in bytes flows.old.items)) }
    ensures names { OnOk result ((bytes : List ℕ) → IsMemberOf bytes member → All (IsFlowOf bytes) flows.old.items → All (IsFlowOf bytes) flows.new.items) }
    ensures err { IfErr result (λ e. e ≡ NoMemory) }
{
    let n = flows.len();
    if n > 0 {
        flows[n - 1].post.push(member)?;
    }
    Ok(())
}

impl Found {
    // A name begins an entry.
    fn entry(&mut self, section: Section, name: Token) -> Result<(), ItemFault>
        ensures ok { OnOk result ((bytes : List ℕ) → found_in bytes self.new ≡ with_name section (lexeme bytes name) (found_in bytes self.old)) }
        ensures names { OnOk result ((bytes : List ℕ) → IsNameOf bytes name → HoldsNames bytes self.old → HoldsNames bytes self.new) }
        ensures err { IfErr result (λ e. e ≡ NoMemory) }
    {
        match section {
            Section::Places => self.places.push(name)?,
            Section::Transitions => self.transitions.push(Transition { name, label: None })?,
        }
        Ok(())
    }

    // An option of the last entry is read.
    fn option(&mut self, bytes: &[u8], section: Section, setting: Setting<Token>)
        requires { HoldsSetting bytes.now setting }
        ensures found { found_in bytes.now self.new ≡ with_setting section (setting_in bytes.now setting) (found_in bytes.now self.old) }
        ensures names { HoldsNames bytes.now self.old → HoldsNames bytes.now self.new }
    {
        match section {
            Section::Places => {}
            Section::Transitions => {
                let label = label_in(bytes, setting);
                label_last(&mut self.transitions, label);
            }
        }
    }

    // A member of a set is read.
    fn member(&mut self, side: Side, member: Member<Token>) -> Result<(), ItemFault>
        ensures ok { OnOk result ((bytes : List ℕ) → found_in bytes self.new ≡ with_member side (member_in bytes member) (found_in bytes self.old)) }
        ensures names { OnOk result ((bytes : List ℕ) → IsMemberOf bytes member → HoldsNames bytes self.old → HoldsNames bytes self.new) }
        ensures err { IfErr result (λ e. e ≡ NoMemory) }
    {
        match side {
            Side::Pre => add_pre(&mut self.flows, member)?,
            Side::Post => add_post(&mut self.flows, member)?,
            Side::Marking => self.marking.push(member)?,
        }
        Ok(())
    }

    // A token comes after `.type`.
    fn at_type(&mut self, token: Token)
        ensures found { (bytes : List ℕ) → found_in bytes self.new ≡ adds TypeName (lexeme bytes token) (found_in bytes self.old) }
        ensures names { (bytes : List ℕ) → HoldsNames bytes self.old → HoldsNames bytes self.new }
    {
        match token.kind {
            Kind::Name => self.typed = true,
            _ => {}
        }
    }

    // A token comes where an entry may begin.
    fn at_entry(&mut self, section: Section, token: Token) -> Result<(), ItemFault>
        ensures ok { OnOk result ((bytes : List ℕ) → found_in bytes self.new ≡ adds (InSection section) (lexeme bytes token) (found_in bytes self.old)) }
        ensures after { OnOk result ((bytes : List ℕ) → found_in bytes self.new ≡ adds (AfterEntry section) (lexeme bytes token) (found_in bytes self.old)) }
        ensures names { OnOk result ((bytes : List ℕ) → IsTokenOf bytes token → HoldsNames bytes self.old → HoldsNames bytes self.new) }
        ensures err { IfErr result (λ e. e ≡ NoMemory) }
    {
        match token.kind {
            Kind::Name => self.entry(section, token)?,
            _ => {}
        }
        Ok(())
    }

    // A token comes in an option list.
    fn at_option(
        &mut self,
        bytes: &[u8],
        section: Section,
        position: ListPosition<Token>,
        token: Token,
    )
        requires token { IsTokenOf bytes.now token }
        requires key { HoldsKey bytes.now position }
        ensures found { found_in bytes.now self.new
            ≡ adds (InList section (list_position_in bytes.now position)) (lexeme bytes.now token) (found_in bytes.now self.old) }
        ensures names { HoldsNames bytes.now self.old → HoldsNames bytes.now self.new }
    {
        match setting_of(position, token) {
            Some(setting) => self.option(bytes, section, setting),
            None => {}
        }
    }

    // A token comes where a flow may begin.
    fn at_flow(&mut self, alloc: Global, token: Token) -> Result<(), ItemFault>
        ensures ok { OnOk result ((bytes : List ℕ) → found_in bytes self.new ≡ adds InFlows (lexeme bytes token) (found_in bytes self.old)) }
        ensures names { OnOk result ((bytes : List ℕ) → IsTokenOf bytes token → HoldsNames bytes self.old → HoldsNames bytes self.new) }
        ensures err { IfErr result (λ e. e ≡ NoMemory) }
    {
        match token.kind {
            Kind::Name => {
                let pre = Vec::new(alloc);
                let post = Vec::new(alloc);
                self.flows.push(FoundFlow {
                    name: token,
                    pre,
                    post,
                })?;
            }
            _ => {}
        }
        Ok(())
    }

    // A token comes in a set.
    fn at_set(
        &mut self,
        side: Side,
        position: SetPosition<Token>,
        token: Token,
    ) -> Result<(), ItemFault>
        ensures ok { OnOk result ((bytes : List ℕ) → found_in bytes self.new
            ≡ adds (InSet side (set_position_in bytes position)) (lexeme bytes token) (found_in bytes self.old)) }
        ensures names { OnOk result ((bytes : List ℕ) → IsTokenOf bytes token → HoldsMember bytes position → HoldsNames bytes self.old → HoldsNames bytes self.new) }
        ensures err { IfErr result (λ e. e ≡ NoMemory) }
    {
        match member_of(position, token) {
            Some(member) => self.member(side, member)?,
            None => {}
        }
        Ok(())
    }
}

impl Reader for Found {
    type Position = Position<Token>;

    ghost GrammarPosition = { Position Lexeme };

    ghost Content = { Declared };

    ghost grammar = { net_grammar };

    ghost grammar_position_in = { position_in };

    ghost content_in = { found_in };

    ghost holds_tokens = { HoldsTokens };

    ghost holds_names = { HoldsNames };

    fn new(alloc: Global) -> Found {
        Found {
            typed: false,
            places: Vec::new(alloc),
            transitions: Vec::new(alloc),
            flows: Vec::new(alloc),
            marking: Vec::new(alloc),
        }
    }

    fn start() -> Position<Token> {
        Position::Start
    }

    fn lead(bytes: &[u8], position: Position<Token>, token: Token) -> Option<Position<Token>> {
        let text = text_of(bytes, token);
        match position {
            Position::Start => from_start(token, text),
            Position::TypeName => from_type(token, text),
            Position::PassedText => from_word(token),
            Position::InSection(section) => from_section(section, token, text),
            Position::AfterEntry(section) => from_entry(section, token, text),
            Position::InList(section, position) => from_list(section, position, token),
            Position::InFlows => from_flows(token, text),
            Position::AfterFlowName => from_flow_name(token),
            Position::BeforeSet(side) => from_before_set(side, token),
            Position::InSet(side, position) => from_set(bytes, side, position, token),
            Position::AfterPre => from_pre(token),
        }
    }

    fn add(
        &mut self,
        alloc: Global,
        bytes: &[u8],
        position: Position<Token>,
        token: Token,
    ) -> Result<(), ItemFault> {
        match position {
            Position::Start => {}
            Position::TypeName => self.at_type(token),
            Position::PassedText => {}
            Position::InSection(section) => self.at_entry(section, token)?,
            Position::AfterEntry(section) => self.at_entry(section, token)?,
            Position::InList(section, position) => self.at_option(bytes, section, position, token),
            Position::InFlows => self.at_flow(alloc, token)?,
            Position::AfterFlowName => {}
            Position::BeforeSet(_) => {}
            Position::InSet(side, position) => self.at_set(side, position, token)?,
            Position::AfterPre => {}
        }
        Ok(())
    }

    fn may_end(position: Position<Token>) -> bool {
        match position {
            Position::Start => true,
            Position::InSection(_) => true,
            Position::AfterEntry(_) => true,
            Position::InFlows => true,
            _ => false,
        }
    }

    fn refusal(position: Position<Token>, token: Token) -> ItemFault {
        match position {
            Position::TypeName => match token.kind {
                Kind::Name => ItemFault::WrongType(token.from),
                _ => ItemFault::Expected(token.from, Want::Name),
            },
            Position::InSet(_, position) => set_refusal(position, token),
            _ => ItemFault::Expected(token.from, want_at(position)),
        }
    }

    fn end_refusal(position: Position<Token>, end: u32) -> ItemFault {
        ItemFault::Expected(end, want_at(position))
    }
}
