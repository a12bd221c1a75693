//! How many members of a committee may lie, and how many are a quorum.

ghost use Rattle.std.specs.Prelude.{◌≡◌, ◌+◌, ◌≤◌, ℕ, List, length};
ghost use Rattle.std.specs.List.{Contains};
ghost use Rattle.types_quorum.specs.Counting.{common};
ghost use Rattle.types_quorum.specs.Committee.{AreQuorum};
ghost use Rattle.types_quorum.specs.Committee as words;

/// The most members of a committee of `n` that may be faulty: a third of all but one, rounded down.
pub const fn faults(n: u32) -> u32
    ensures { result ≡ words.faults n }
{
    n.saturating_sub(1) / 3
}

/// How many members of a committee of `n` are a quorum: all but as many as may be faulty.
pub const fn quorum(n: u32) -> u32
    ensures { result ≡ words.quorum n }
{
    n - faults(n)
}

/// The law of quorums: two quorums of one committee share at least one member more than may be faulty,
/// and so, whichever members are faulty, one that isn't.
pub fn two_quorums_share_members()
    ensures shared { (n : ℕ) (xs ys : List ℕ) → 1 ≤ n → AreQuorum n xs → AreQuorum n ys → words.faults n + 1 ≤ length (common xs ys) }
    ensures correct { (n : ℕ) (xs ys faulty : List ℕ)
        → 1 ≤ n
        → AreQuorum n xs
        → AreQuorum n ys
        → length faulty ≤ words.faults n
        → (i : ℕ) × Contains xs i × Contains ys i × (Contains faulty i → ⊥) }
{}
