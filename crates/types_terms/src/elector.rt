//! Who leads a round.

ghost use Rattle.std.specs.Prelude.{◌≡◌, ◌<◌, ℕ, Option, IsSome, IfOk, option_copied};
ghost use Rattle.types_core.specs.declared.position.Round.{Round};
ghost use Rattle.types_terms.specs.Terms.{Timing};
ghost use Rattle.types_terms.specs.declared.elector.Mode.{Mode};
ghost use Rattle.types_terms.specs.declared.elector.Mode.TheVariants.{Scheduled, Dynamic};

mod laws;
mod round_robin;
mod shuffle;

pub use crate::terms::Terms;
pub use laws::{a_seed_makes_one_order, a_term_has_one_leader, each_participant_leads_once};
pub use round_robin::{RoundRobin, RoundRobinElector};
use std::alloc::{AllocError, Global};
use types_core::{Digest, Duplicate, Participant, Round, Scheme};

/// What decides who leads.
#[derive(Clone, Copy, Debug, PartialEq, Eq)]
pub enum Mode {
    /// The round alone.
    Scheduled,
    /// Above view 1 also the certificate that the view was entered by.
    Dynamic,
}

/// Who leads each round, for the participants that the elector was built for.
pub trait Elector<S: Scheme<D>, D: Digest>: Duplicate + Drop {
    /// It was built for so many participants.
    ghost built_for: { Self → ℕ → Type 0 };

    /// What decides who leads.
    ghost mode_of: { Self → Mode };

    /// The terms that it sets.
    ghost terms_of: { Self → Timing };

    /// The index of the leader of a round that was entered by this certificate, if by one.
    ghost leader: { Self → Round → Option S.Certificate → ℕ };

    /// What decides who leads.
    fn mode(&self) -> Mode
        ensures { result ≡ mode_of self.now };

    /// The terms that it sets.
    fn terms(&self) -> Terms
        ensures { result ≡ terms_of self.now };

    /// The leader of the round. Above view 1 a dynamic elector must be given the certificate that the
    /// view was entered by.
    fn elect(&self, round: Round, certificate: Option<&S::Certificate>) -> Participant
        requires { mode_of self.now ≡ Dynamic → 1 < round.view → IsSome certificate }
        ensures { result ≡ leader self.now round (option_copied certificate.entry) };

    /// It elects participants alone.
    ghost participants_lead: { (e : Self) (n : ℕ) (r : Round) (c : Option S.Certificate) → built_for e n → leader e r c < n };

    /// Where it is scheduled, no certificate matters.
    ghost schedule: { (e : Self) (r : Round) (c d : Option S.Certificate) → mode_of e ≡ Scheduled → leader e r c ≡ leader e r d };
}

/// How an elector is built.
pub trait Config<S: Scheme<D>, D: Digest> {
    /// What is built.
    type Elector: Elector<S, D>;

    /// The elector for so many participants. Refused only where memory is.
    fn build(&self, alloc: Global, participants: u32) -> Result<Self::Elector, AllocError>
        requires { 0 < participants }
        ensures { IfOk result (λ e. Self.Elector.built_for e participants) };
}
