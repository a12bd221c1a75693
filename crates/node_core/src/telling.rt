//! What the votes of all views are told of an artifact that the record has.

ghost use Rattle.std.specs.Prelude.{Bool, OnOk};
ghost use Rattle.node_inbox.specs.Recounting.{AtSome};
ghost use Rattle.node_votes.specs.KeepsVotes as accepting;
ghost use Rattle.simplex_member.specs.Point.{Found};
ghost use Rattle.node_core.specs.Recalling.{CanBeCounted};

use crate::saying::Said;
use messages_certificates::Artifact;
use node_inbox::{recount_certificate, recount_vote};
use node_votes::{Acceptance, silent_points_leave_votes};
use std::alloc::{AllocError, Global};
use types_core::{Digest, Duplicate, Scheme};

/// Tells the votes of all views, before what need not be kept behind it is dropped.
///
/// # Errors
///
/// `AllocError` where memory ran out.
pub(crate) fn tell_votes<S: Scheme<D> + Drop, D: Digest>(
    acceptance: &mut Acceptance<S, D>,
    alloc: Global,
    artifact: &Artifact<S, D>,
) -> Result<(), AllocError>
    requires { AtSome S.Scheme D.PartialEq.eq acceptance.old (λ s h. CanBeCounted S.Scheme s h artifact.now) }
    ensures { OnOk result (accepting.AtEach S.Scheme D.PartialEq.eq acceptance.old (λ s h.
        (taken : Bool)
        → CanBeCounted S.Scheme s h artifact.now
        → accepting.KeepsAhead S.Scheme D.PartialEq.eq s acceptance.new h (Found artifact.now taken))) }
{
    silent_points_leave_votes::<S, D>();
    match Said::from(artifact.duplicate(alloc)?) {
        Said::Vote(vote) => recount_vote(acceptance, vote),
        Said::Certificate(certificate) => recount_certificate(acceptance, &certificate),
        Said::Verdict(..) => Ok(()),
    }
}
