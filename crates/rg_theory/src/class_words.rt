//! Classes as words.
ghost use Rattle.std.specs.Prelude.{◌≡◌, ◌≢◌, ◌⊎◌, ℕ, ◌<◌, ◌≤◌, true, false, List, length, codes, ◌++◌, decimal, IfOk, IfErr, OnOk, IfSome, IfNone};
ghost use Rattle.std.specs.List.{list_all};
ghost use Rattle.std.specs.Char.{is_ascii_digit};
ghost use Rattle.rg_theory.specs.declared.Class.{Class};
ghost use Rattle.rg_theory.specs.declared.class_words.ClassFault.{ClassFault};
ghost use Rattle.rg_theory.specs.declared.class_words.Condition.{Condition};
ghost use Rattle.rg_theory.specs.declared.class_words.Condition.TheVariants as condition;
ghost use Rattle.rg_theory.specs.declared.class_words.ClassFault.TheVariants as fault;
ghost use Rattle.rg_theory.specs.ClassWords.{IsWordOf, no_condition, with_condition, with_conditions, asks_for, NamesClass, IsBadNumeral, IsRefusedWord, FirstRefusedWord, IsClassTold, class_text, HasNumbersInRange};
ghost use Rattle.rg_theory.specs.ClassParts.{IsOther};

use crate::{ALL_NETS, Class};
use rg_text::are_digits;

/// Why a class isn't read: the first word that is refused, by its number from 0.
#[derive(Clone, Copy, Debug, PartialEq, Eq)]
pub enum ClassFault {
    /// No word of a class; also an empty word, and `none` with another word.
    UnknownWord(u32),
    /// Digits and `-bounded` or `-marking`, whose number isn't 1 to 255 or begins with 0.
    BadNumber(u32),
    /// A condition that an earlier word gave; two bounds are such, and two markings.
    Repeated(u32),
}

/// A condition of a class, with the word that gives it.
#[derive(Clone, Copy, Debug, PartialEq, Eq)]
pub enum Condition {
    /// `pure`: no label both takes from a place and puts on it.
    Pure,
    /// `plain`: each weight is 0 or 1.
    Plain,
    /// `N-bounded`, or `safe` for the bound 1: no reachable marking has more tokens on a place.
    Bounded(u8),
    /// `N-marking`: the start number of each place is a multiple of N.
    Multiple(u8),
    /// `output-nonbranching`: one label at most takes from a place.
    Nonbranching,
}

impl Class {
    /// Returns the class that a text names: `none`, or words separated by commas, in any order, each once: `pure`,
    /// `plain`, `safe` or `N-bounded`, `N-marking`, each with N from 1 to 255, `output-nonbranching`. The words are
    /// this project's own; the conditions are those of Best and Devillers, Petri Net Primer.
    ///
    /// Errors: the first word that is refused, as `ClassFault` says.
    pub fn read(text: &str) -> Result<Class, ClassFault>
        ensures ok { IfOk result (NamesClass text.now) }
        ensures fault { IfErr result (FirstRefusedWord text.now) }
    {
        let mut class = ALL_NETS;
        if text == "none" {
            return Ok(class);
        }
        let mut number = 0;
        for word in text.split(',') {
            class.take(word, number)?;
            number += 1;
        }
        Ok(class)
    }

    // Adds the condition that word number i gives.
    fn take(&mut self, word: &str, number: u32) -> Result<(), ClassFault>
        ensures ok { OnOk result ((c : Condition) × IsWordOf c word.now × (asks_for self.old c ≡ false) × (self.new ≡ with_condition self.old c)) }
        ensures fault { IfErr result (λ f. (before : List Condition) → self.old ≡ with_conditions no_condition before → IsRefusedWord before word.now number f) }
    {
        let condition = match condition_of(word, number) {
            Ok(condition) => condition,
            Err(fault) => return Err(fault),
        };
        if self.has(condition) {
            return Err(ClassFault::Repeated(number));
        }
        self.add(condition);
        Ok(())
    }

    // Whether a like condition is asked.
    fn has(&self, condition: Condition) -> bool
        ensures { result ≡ asks_for self.now condition }
    {
        match condition {
            Condition::Pure => self.pure,
            Condition::Plain => self.plain,
            Condition::Bounded(_) => self.bound.is_some(),
            Condition::Multiple(_) => self.marking.is_some(),
            Condition::Nonbranching => self.nonbranching,
        }
    }

    // Adds a condition.
    fn add(&mut self, condition: Condition)
        ensures { self.new ≡ with_condition self.old condition }
    {
        match condition {
            Condition::Pure => self.pure = true,
            Condition::Plain => self.plain = true,
            Condition::Bounded(k) => self.bound = Some(k),
            Condition::Multiple(n) => self.marking = Some(n),
            Condition::Nonbranching => self.nonbranching = true,
        }
    }
}

// The condition that word number i gives.
fn condition_of(word: &str, number: u32) -> Result<Condition, ClassFault>
    ensures ok { IfOk result (λ c. IsWordOf c word.now) }
    ensures fault { IfErr result (λ f. (before : List Condition) → IsRefusedWord before word.now number f) }
{
    match word {
        "pure" => Ok(Condition::Pure),
        "plain" => Ok(Condition::Plain),
        "safe" => Ok(Condition::Bounded(1)),
        "output-nonbranching" => Ok(Condition::Nonbranching),
        _ => condition_of_number(word, number),
    }
}

// The bound or the marking that word number i gives.
fn condition_of_number(word: &str, number: u32) -> Result<Condition, ClassFault>
    requires other { IsOther word.now }
    ensures ok { IfOk result (λ c. IsWordOf c word.now) }
    ensures fault { IfErr result (λ f. (before : List Condition) → IsRefusedWord before word.now number f) }
{
    if let Some(digits) = before(word, "-bounded") {
        return match numeral(digits, number) {
            Ok(k) => Ok(Condition::Bounded(k)),
            Err(fault) => Err(fault),
        };
    }
    if let Some(digits) = before(word, "-marking") {
        return match numeral(digits, number) {
            Ok(n) => Ok(Condition::Multiple(n)),
            Err(fault) => Err(fault),
        };
    }
    Err(ClassFault::UnknownWord(number))
}

// The number before the tail of word number i.
fn numeral(digits: &str, number: u32) -> Result<u8, ClassFault>
    ensures ok { IfOk result (λ k. (0 < k) × (k ≤ 255) × (digits.now ≡ decimal k)) }
    ensures fault { IfErr result (λ f. ((f ≡ fault.UnknownWord number) × (0 < length digits.now → list_all is_ascii_digit digits.now ≡ true → ⊥)) ⊎ ((f ≡ fault.BadNumber number) × IsBadNumeral digits.now)) }
{
    if digits.is_empty() {
        return Err(ClassFault::UnknownWord(number));
    }
    if !are_digits(digits.as_bytes()) {
        return Err(ClassFault::UnknownWord(number));
    }
    match small_number(digits) {
        Some(k) => Ok(k),
        None => Err(ClassFault::BadNumber(number)),
    }
}

// What precedes the tail.
fn before<'a>(word: &'a str, tail: &str) -> Option<&'a str>
    ensures some { IfSome result (λ front. word.entry.now ≡ front.now ++ tail.now) }
    ensures none { IfNone result ((front : List ℕ) → word.entry.now ≢ front ++ tail.now) }
{
    word.strip_suffix(tail)
}

// The number from 1 to 255 that digits spell without a leading 0.
fn small_number(digits: &str) -> Option<u8>
    requires some { 0 < length digits.now }
    requires digits { list_all is_ascii_digit digits.now ≡ true }
    ensures some { IfSome result (λ k. (0 < k) × (k ≤ 255) × (digits.now ≡ decimal k)) }
    ensures none { IfNone result ((k : ℕ) → 0 < k → k ≤ 255 → digits.now ≢ decimal k) }
{
    if digits.as_bytes()[0] == b'0' {
        return None;
    }
    match digits.parse::<u8>() {
        Ok(k) => Some(k),
        Err(_) => None,
    }
}

/// Law: each text names one class or has one first refused word, never both, the text with which a class is written
/// names that class, and a class that a text names has a bound from 1 to 255 or none, and a marking from 1 to 255 or
/// none.
pub fn class_is_told()
    ensures told { (text : List ℕ) → IsClassTold text }
    ensures one_class { (text : List ℕ) (a b : Class) → NamesClass text a → NamesClass text b → a ≡ b }
    ensures one_fault { (text : List ℕ) (f g : ClassFault) → FirstRefusedWord text f → FirstRefusedWord text g → f ≡ g }
    ensures not_both { (text : List ℕ) (class : Class) (fault : ClassFault) → NamesClass text class → ¬ FirstRefusedWord text fault }
    ensures written { (class : Class) → HasNumbersInRange class → NamesClass (class_text class) class }
    ensures in_range { (text : List ℕ) (class : Class) → NamesClass text class → HasNumbersInRange class }
{}
