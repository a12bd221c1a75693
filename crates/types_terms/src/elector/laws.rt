//! The laws of leaders in turn.

ghost use Rattle.std.specs.Prelude.{◌≡◌, ◌<◌, ◌≤◌, ◌+◌, ◌^◌, ℕ, List};
ghost use Rattle.types_core.specs.Positions.{term_index};
ghost use Rattle.types_terms.specs.Rotation.{IsOrder, LeadsOnce, Rotation, view_leader};
ghost use Rattle.types_terms.specs.Shuffle.{IsShuffled};

/// Of so many terms of an epoch in a row as there are participants, each participant leads exactly
/// one, where their numbers with the epoch's are numbers of 64 bits.
pub fn each_participant_leads_once()
    ensures { (n : ℕ) (order : List ℕ)
        → IsOrder n order
        → (epoch first : ℕ)
        → epoch + first + n ≤ 2 ^ 64
        → (member : ℕ)
        → member < n
        → LeadsOnce order epoch first member }
{}

/// The views of a term have one leader in each epoch.
pub fn a_term_has_one_leader()
    ensures { (r : Rotation) (epoch view later : ℕ)
        → term_index r.terms.length view ≡ term_index r.terms.length later
        → view_leader r epoch view ≡ view_leader r epoch later }
{}

/// A seed makes one order of so many participants.
pub fn a_seed_makes_one_order()
    ensures { (seed : List ℕ) (n : ℕ) (a b : List ℕ) → IsShuffled seed n a → IsShuffled seed n b → a ≡ b }
{}
