//! What a voter asks its application to build.

ghost use Rattle.std.specs.Prelude.{◌≡◌, ◌↔◌, IsTrue};
ghost use Rattle.voter_rules.specs.Building.{IsPrepared, context_of};

use types_core::{Context, Digest, PublicKey, View, Viewable};

/// What a voter asks its application to build.
#[derive(Clone, Copy, Debug)]
pub enum ProposalRequest<D: Digest, P: PublicKey> {
    /// A handoff: the first view of a term, before the last view of the term before it is certified.
    Prepare(Context<D, P>),
    /// A view on a parent that is certified, or inside a term.
    Propose(Context<D, P>),
}

impl<D: Digest, P: PublicKey> ProposalRequest<D, P> {
    /// The request for a build in this context, for a handoff or not.
    pub fn new(is_handoff: bool, context: Context<D, P>) -> Self
        ensures context { context_of result ≡ context }
        ensures handoff { IsPrepared result ↔ IsTrue is_handoff }
    {
        if is_handoff {
            return ProposalRequest::Prepare(context);
        }
        ProposalRequest::Propose(context)
    }

    /// Whether it is a handoff.
    pub const fn is_handoff(&self) -> bool
        ensures { IsTrue result ↔ IsPrepared self.now }
    {
        match self {
            ProposalRequest::Prepare(_) => true,
            ProposalRequest::Propose(_) => false,
        }
    }

    /// What is to be built on.
    pub const fn context(&self) -> &Context<D, P>
        ensures { result.now ≡ context_of self.now }
    {
        match self {
            ProposalRequest::Prepare(context) | ProposalRequest::Propose(context) => context,
        }
    }

    /// What is to be built on.
    pub fn into_context(self) -> Context<D, P>
        ensures { result ≡ context_of self }
    {
        match self {
            ProposalRequest::Prepare(context) | ProposalRequest::Propose(context) => context,
        }
    }
}

impl<D: Digest, P: PublicKey> Viewable for ProposalRequest<D, P> {
    ghost view_of = { λ request. (context_of request).round.view };

    fn view(&self) -> View {
        self.context().round.view
    }
}
