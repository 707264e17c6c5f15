//! Words say one thing.
ghost use Rattle.std.specs.Prelude.{◌≡◌, ℕ, List};
ghost use Rattle.rg_commands.specs.declared.request.Request.{Request};
ghost use Rattle.rg_commands.specs.Requests.{HasBounds};
ghost use Rattle.rg_commands.specs.Says.{Said, Ask, WordsSay};

/// Law: words ask for one thing or are refused for one reason, always, and never for two. What they ask for has its
/// numbers in range.
pub fn words_say_one_thing()
    ensures one { (words : List (List ℕ)) (a b : Said) → WordsSay words a → WordsSay words b → a ≡ b }
    ensures some { (words : List (List ℕ)) → (said : Said) × WordsSay words said }
    ensures bounds { (words : List (List ℕ)) (request : Request (List ℕ)) → Ask words request → HasBounds request }
{}
