//! Which votes a report holds: a loose one, one for each attestation that a certificate lists, and both of evidence.

ghost use Rattle.std.specs.Prelude.{◌≡◌};
ghost use Rattle.simplex_messages.specs.Guilt.{finalizes_in, notarizes_in, nullifies_in};
ghost use Rattle.audit_evidence.specs.Held.{nullifies_held, votes_held};

use crate::held::{HeldNullifies, HeldVotes};
use simplex_messages::{Activity, Finalizing, Notarizing};
use types_core::{Digest, Scheme};

/// The notarizes that the report holds. What was certified is a notarization too.
pub fn held_notarizes<'a, S: Scheme<D>, D: Digest>(
    report: &'a Activity<S, D>,
) -> HeldVotes<'a, Notarizing, S, D>
    ensures { votes_held S.lists result ≡ notarizes_in S.lists report.now }
{
    match report {
        Activity::Notarize(vote) => HeldVotes::One(vote),
        Activity::Notarization(made) => HeldVotes::Listed(made),
        Activity::Certification(made) => HeldVotes::Listed(made),
        Activity::ConflictingNotarize(both) => HeldVotes::Both(both),
        _ => HeldVotes::Nothing,
    }
}

/// The nullifies that the report holds.
pub fn held_nullifies<'a, S: Scheme<D>, D: Digest>(
    report: &'a Activity<S, D>,
) -> HeldNullifies<'a, S, D>
    ensures { nullifies_held S.lists result ≡ nullifies_in S.lists report.now }
{
    match report {
        Activity::Nullify(vote) => HeldNullifies::One(vote),
        Activity::Nullification(made) => HeldNullifies::Listed(made),
        Activity::NullifyFinalize(both) => HeldNullifies::One(both.nullify()),
        _ => HeldNullifies::Nothing,
    }
}

/// The finalizes that the report holds.
pub fn held_finalizes<'a, S: Scheme<D>, D: Digest>(
    report: &'a Activity<S, D>,
) -> HeldVotes<'a, Finalizing, S, D>
    ensures { votes_held S.lists result ≡ finalizes_in S.lists report.now }
{
    match report {
        Activity::Finalize(vote) => HeldVotes::One(vote),
        Activity::Finalization(made) => HeldVotes::Listed(made),
        Activity::ConflictingFinalize(both) => HeldVotes::Both(both),
        Activity::NullifyFinalize(both) => HeldVotes::One(both.finalize()),
        _ => HeldVotes::Nothing,
    }
}
