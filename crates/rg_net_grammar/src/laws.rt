//! A text has items with one meaning, or one first fault.
ghost use Rattle.std.specs.Prelude.{◌≡◌, ℕ, ◌⊎◌, ◌++◌, List, Some};
ghost use Rattle.rg_grammar.specs.declared.fault.ItemFault.{ItemFault};
ghost use Rattle.rg_lexer.specs.Lexeme.{Lexeme};
ghost use Rattle.rg_grammar.specs.Grammar.{leads_all};
ghost use Rattle.rg_net_grammar.specs.Item.{Item, AreItems};
ghost use Rattle.rg_net_grammar.specs.Table.{Position, Start};
ghost use Rattle.rg_net_grammar.specs.Reading.{net_grammar};
ghost use Rattle.rg_net_grammar.specs.Contents.{declared};
ghost use Rattle.rg_net_grammar.specs.Text.{AreItemsOf, FirstItemFault};

/// Law: a text is items or has a first fault, never both. What its items declare is one, and so is its fault.
pub fn one_answer()
    ensures some { (bytes : List ℕ) → ((items : List Item) × AreItemsOf bytes items) ⊎ ((f : ItemFault) × FirstItemFault bytes f) }
    ensures one_meaning { (bytes : List ℕ) (a b : List Item) → AreItemsOf bytes a → AreItemsOf bytes b → declared a ≡ declared b }
    ensures one_fault { (bytes : List ℕ) (f g : ItemFault) → FirstItemFault bytes f → FirstItemFault bytes g → f ≡ g }
    ensures not_both { (bytes : List ℕ) (items : List Item) (f : ItemFault) → AreItemsOf bytes items → ¬ FirstItemFault bytes f }
{}

/// Law: tokens that lead anywhere from the start go on to the tokens of a whole file, so a first fault of the grammar
/// is reported at the first token that can't continue any file.
pub fn tokens_go_on()
    ensures { (front : List Lexeme) (position : Position Lexeme) → leads_all net_grammar Start front ≡ Some position → (more : List Lexeme) × (items : List Item) × AreItems items (front ++ more) }
{}
