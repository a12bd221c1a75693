//! What an artifact of a record says.

use messages_certificates::{Artifact, Certificate};
use simplex_messages::Vote;
use types_core::{Digest, Round, Scheme};

/// What an artifact of a record says.
#[derive(Drop)]
pub(crate) enum Said<S: Scheme<D>, D: Digest> {
    /// An own vote.
    Vote(Vote<S, D>),
    /// A certificate.
    Certificate(Certificate<S, D>),
    /// The application's verdict on the proposal of a round.
    Verdict(Round, bool),
}

impl<S: Scheme<D>, D: Digest> From<Artifact<S, D>> for Said<S, D> {
    ghost use Rattle.std.specs.Prelude.{◌≡◌};
    ghost use Rattle.node_core.specs.Saying.{said_artifact};

    ghost from_gives = { λ artifact said. artifact ≡ said_artifact said };

    fn from(artifact: Artifact<S, D>) -> Self {
        match artifact {
            Artifact::Notarize(vote) => Said::Vote(Vote::Notarize(vote)),
            Artifact::Notarization(certificate) => {
                Said::Certificate(Certificate::Notarization(certificate))
            }
            Artifact::Certification(round, ok) => Said::Verdict(round, ok),
            Artifact::Nullify(vote) => Said::Vote(Vote::Nullify(vote)),
            Artifact::Nullification(certificate) => {
                Said::Certificate(Certificate::Nullification(certificate))
            }
            Artifact::Finalize(vote) => Said::Vote(Vote::Finalize(vote)),
            Artifact::Finalization(certificate) => {
                Said::Certificate(Certificate::Finalization(certificate))
            }
        }
    }
}
