// Checking a book's types: what is found of each node and why it is refused, as a definition, with its laws.
// The code that finds it stands in the crate `checked`.
#![tactic(auto)]

ghost use Rattle.std.specs.Prelude.{ℕ};
ghost use Rattle.cool.specs.Book.{Book, Formed};
ghost use Rattle.cool.specs.Nodes.{Where};
ghost use Rattle.checker.specs.Checking.{Exact};

pub mod fault;
pub mod place;

// Types are found exactly as the rules give them, and each refusal holds at its spot.
pub fn checking_is_exact()
    ensures { (B : Book) → Formed B → (Γ : Where) (k : ℕ) → Exact B Γ k }
{}
