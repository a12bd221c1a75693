//! What is due is sent, and only that.

ghost use Rattle.simplex_member.specs.Packet.{Formats};
ghost use Rattle.simplex_member.specs.Sent.{EachVoteSentWasDue, NoneIsDueBehindAnswers};

use types_core::{Digest, Scheme};

/// Each vote that a correct member sends was due at a point of one of its lives, and that point cast it, or repeated the
/// recorded nullify.
pub fn sent_votes_were_due<S: Scheme<D>, D: Digest>()
    ensures { (f : Formats S D S.PublicKey S.Signature S.Certificate) → EachVoteSentWasDue S.Scheme f }
{}

/// None is due where a correct member has answered, be it a reply or an opening: no vote, no request, no ask, no
/// certificate to be made, no view to be given up.
pub fn none_stays_unsent<S: Scheme<D>, D: Digest>()
    ensures { (f : Formats S D S.PublicKey S.Signature S.Certificate) → NoneIsDueBehindAnswers S.Scheme f }
{}
