//! A text spells one system or has one first fault.
ghost use Rattle.std.specs.Prelude.{◌≡◌, ℕ, ◌⊎◌, ◌++◌, List, Some, length};
ghost use Rattle.rg_grammar.specs.Grammar.{leads_all};
ghost use Rattle.rg_apt.specs.Table.{Position, Start};
ghost use Rattle.rg_theory.specs.System.{System};
ghost use Rattle.rg_lexer.specs.Lexeme.{Lexeme};
ghost use Rattle.rg_grammar.specs.declared.fault.ItemFault.{ItemFault};
ghost use Rattle.rg_apt.specs.declared.fault.TextFault.{TextFault};
ghost use Rattle.rg_apt.specs.declared.fault.TextFault.TheVariants.{NoMemory};
ghost use Rattle.rg_apt.specs.Item.{Item, AreItems};
ghost use Rattle.rg_apt.specs.Reading.{FirstRefusal, system_grammar};
ghost use Rattle.rg_apt.specs.Contents.{declared};
ghost use Rattle.rg_apt.specs.Spells.{Spells, FirstFault};
ghost use Rattle.rg_apt.specs.Plain.{IsPlainText, lts_text};
ghost use Rattle.rg_lts.specs.WellFormed.{IsWellFormed};

/// Law: a text spells a system or has a first fault, never both and never two.
pub fn one_answer()
    ensures some { (bytes : List ℕ) → ((a : System) × Spells bytes a) ⊎ ((f : TextFault) × FirstFault bytes f) }
    ensures one_system { (bytes : List ℕ) (a b : System) → Spells bytes a → Spells bytes b → a ≡ b }
    ensures one_fault { (bytes : List ℕ) (f g : TextFault) → FirstFault bytes f → FirstFault bytes g → f ≡ g }
    ensures not_both { (bytes : List ℕ) (a : System) (f : TextFault) → Spells bytes a → ¬ FirstFault bytes f }
{}

/// Law: the table and the items agree: tokens are items, or one of them is refused, never both. What they declare is
/// one. Tokens that lead anywhere from the start go on to the tokens of a whole file, so the first that is refused is
/// the first that can't continue any file.
pub fn items_are_read()
    ensures some { (xs : List Lexeme) (end : ℕ) → ((items : List Item) × AreItems items xs) ⊎ ((f : ItemFault) × FirstRefusal xs end f) }
    ensures not_refused { (items : List Item) (xs : List Lexeme) (end : ℕ) (f : ItemFault) → AreItems items xs → ¬ FirstRefusal xs end f }
    ensures one_meaning { (a b : List Item) (xs : List Lexeme) → AreItems a xs → AreItems b xs → declared a ≡ declared b }
    ensures goes_on { (front : List Lexeme) (position : Position Lexeme) → leads_all system_grammar Start front ≡ Some position → (more : List Lexeme) × (items : List Item) × AreItems items (front ++ more) }
{}

/// Law: a plain text spells the same system by the whole grammar, whatever the order of its arcs.
pub fn plain_is_spelled()
    ensures { (bytes : List ℕ) (lts : System) → IsPlainText bytes lts → Spells bytes lts }
{}

/// Law: the plain text of a system, as `print_lts` writes it, spells that system.
pub fn printed_is_spelled()
    ensures { (lts : System) → IsWellFormed lts → Spells (lts_text lts) lts }
{}

/// Law: what a text spells is well formed, and no text has want of memory as its first fault.
pub fn spelled_is_well_formed()
    ensures formed { (bytes : List ℕ) (lts : System) → Spells bytes lts → IsWellFormed lts }
    ensures fault { (bytes : List ℕ) → ¬ FirstFault bytes NoMemory }
{}
