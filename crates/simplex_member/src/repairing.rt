//! What follows from how a member repairs.

ghost use Rattle.simplex_member.specs.Packet.{Formats};
ghost use Rattle.simplex_member.specs.Repairing.{AsksAreInTheirWindow, AsksChangeNothingElse, AsksGoAgainWithNullifies, NothingElseWaitsForAsks, UnsettledAsksGoAgain};
ghost use Rattle.simplex_member.specs.Setup.{Setup};

use types_core::{Digest, Scheme};

/// What is asked a second time in an opening goes with a repeated nullify, where the setup has it so, and isn't settled.
pub fn asks_go_again_with_nullifies<S: Scheme<D>, D: Digest>()
    ensures { (f : Formats S D S.PublicKey S.Signature S.Certificate) (s : Setup S D S.Certificate) → AsksGoAgainWithNullifies S.Scheme f s }
{}

/// Where the setup has it so, what still stands and nothing settled does go again: behind acts with a repeated nullify that
/// leave no ask due, each such ask went out since the time was told last.
pub fn unsettled_asks_go_again<S: Scheme<D>, D: Digest>()
    ensures { (f : Formats S D S.PublicKey S.Signature S.Certificate) (s : Setup S D S.Certificate) → UnsettledAsksGoAgain S.Scheme f s }
{}

/// Behind one event a member asks for no more views to leave behind than its window has, unless it makes a certificate
/// meanwhile: that may settle what it asked for, or bring more to ask for.
pub fn asks_are_in_their_window<S: Scheme<D>, D: Digest>()
    ensures { (f : Formats S D S.PublicKey S.Signature S.Certificate) (s : Setup S D S.Certificate) → AsksAreInTheirWindow S.Scheme f s }
{}

/// No vote waits for an ask, and whatever the policy of repair, the same votes are due, and views are given up at the same
/// moments.
pub fn nothing_else_waits_for_asks<S: Scheme<D>, D: Digest>()
    ensures { (f : Formats S D S.PublicKey S.Signature S.Certificate) (s : Setup S D S.Certificate) → NothingElseWaitsForAsks S.Scheme f s }
{}

/// Behind an ask all else may come that might before it, a vote, a block or what is recorded, and hands out the same.
pub fn asks_change_nothing_else<S: Scheme<D>, D: Digest>()
    ensures { (f : Formats S D S.PublicKey S.Signature S.Certificate) (s : Setup S D S.Certificate) → AsksChangeNothingElse S.Scheme f s }
{}
