//! What a voter asks its application to judge.
#![tactic(auto, unfolding(crate::specs::State::Keeps))]

ghost use Rattle.std.specs.Prelude.{◌≡◌, ℕ, List, [], Contains, IsTrue, IfOk, OnOk};
ghost use Rattle.std.specs.Ordering.{nat_cmp};
ghost use Rattle.std.specs.BTreeSet.{contains};
ghost use Rattle.types_core.specs.declared.proposal.Proposal.{Proposal};
ghost use Rattle.voter_history.specs.Known.{known};
ghost use Rattle.voter_views.specs.Views as above;
ghost use Rattle.voter_rules.specs.Ancestry.{member};
ghost use Rattle.voter_rules.specs.Requests.{AreReady, ArePutOff};
ghost use Rattle.voter_rules.specs.declared.requests.CertifyRequest.TheVariants as request;
ghost use Rattle.simplex_state.specs.Candidates.{Adds, AreAll, AreAmong, AreWanted, IsWoken, put_off};
ghost use Rattle.simplex_state.specs.State.{AtEach, Keeps};

use crate::state::State;
use std::alloc::{AllocError, Global};
use std::collections::BTreeSet;
use std::mem;
use types_core::{Digest, Proposal, Scheme, View, Viewable};
use types_terms::Elector;
use voter_rules::CertificateFetch;
use voter_rules::requests::{CertifyRequest, verdict_for};
use voter_views::Views;

/// What is to be asked for verdicts.
#[derive(Drop)]
struct Verdicts<D: Digest> {
    /// The proposals on which verdicts are to be asked for.
    ready: Vec<Proposal<D>>,
    /// The notarizations that are to be asked for.
    fetches: Vec<CertificateFetch>,
    /// The views whose verdicts are put off.
    put_off: Vec<View>,
}

impl<D: Digest> Verdicts<D> {
    /// Nothing.
    fn new(alloc: Global) -> Self
        ensures ready { result.ready.items ≡ [] }
        ensures fetches { result.fetches.items ≡ [] }
        ensures put_off { result.put_off.items ≡ [] }
    {
        Verdicts {
            ready: Vec::new(alloc),
            fetches: Vec::new(alloc),
            put_off: Vec::new(alloc),
        }
    }

    /// Adds what is to be asked for the verdict on a view.
    fn add(&mut self, view: View, request: CertifyRequest<D>) -> Result<(), AllocError>
        ensures { OnOk result (Adds view request self.old self.new) }
    {
        match request {
            CertifyRequest::Ready(proposal) => self.ready.push(proposal)?,
            CertifyRequest::Fetch(required) => self.fetch(view, required)?,
            CertifyRequest::PutOff(_) => self.put_off.push(view)?,
            CertifyRequest::Wait => {}
        }
        Ok(())
    }

    /// Adds that the verdict on a view is put off, and the notarization of the required one to be asked for.
    fn fetch(&mut self, proposal: View, view: View) -> Result<(), AllocError>
        ensures { OnOk result (Adds proposal (request.Fetch view) self.old self.new) }
    {
        self.put_off.push(proposal)?;
        self.fetches.push(CertificateFetch { proposal, view })?;
        Ok(())
    }
}

impl<S: Scheme<D> + Drop, L: Elector<S, D>, D: Digest> State<S, L, D> {
    /// The notarized proposals on which verdicts are to be asked for, and the notarizations that are to be asked for since the
    /// verdicts on the next views wait for them; both ascend by the views of the verdicts. A verdict that only waits for its required
    /// parent is put off until that is explicit, so its notarization is asked for once. A proposal on which a verdict is to be asked for
    /// is answered again until `set_certify_handle` says that one was, or the verdict comes.
    ///
    /// The cost is that of the verdicts that came up since the last call, and of those that were answered then.
    ///
    /// # Errors
    ///
    /// `AllocError` where memory ran out.
    pub fn certify_candidates(
        &mut self,
        alloc: Global,
    ) -> Result<(Vec<Proposal<D>>, Vec<CertificateFetch>), AllocError>
        ensures keeps { OnOk result (AtEach S.Scheme L.Elector self.old
            (λ s h. (views : List ℕ) × ArePutOff (member s) (known s h) views × Keeps S.Scheme L.Elector s self.new (put_off views h))) }
        ensures ready { IfOk result (λ r. AtEach S.Scheme L.Elector self.old (λ s h. AreReady (member s) (known s h) r.0.items)) }
        ensures wanted { IfOk result (λ r. AtEach S.Scheme L.Elector self.old (λ s h. AreWanted (member s) (known s h) r.1.items)) }
    {
        if self.candidates.is_empty() {
            // The proof takes from the number that a term has at least one view.
            let _views = self.views.lookahead().length.get();
            return Ok((Vec::new(alloc), Vec::new(alloc)));
        }
        let candidates = mem::replace(&mut self.candidates, BTreeSet::new(alloc));
        let Verdicts {
            ready,
            fetches,
            put_off,
        } = look_at(&self.views, alloc, candidates)?;
        put_off_verdicts(&mut self.views, &put_off)?;
        keep(&mut self.candidates, &ready)?;
        Ok((ready, fetches))
    }
}

/// What is to be asked for the verdicts on these views.
fn look_at<S: Scheme<D> + Drop, L: Elector<S, D>, D: Digest>(
    views: &Views<S, L, D>,
    alloc: Global,
    candidates: BTreeSet<View>,
) -> Result<Verdicts<D>, AllocError>
    ensures { IfOk result
        (λ found. above.AtEach S.Scheme L.Elector views.now (λ s h. AreAmong s h candidates → AreAll (member s) (known s h) found)) }
{
    // The proof takes from the number that a term has at least one view.
    let _views = views.lookahead().length.get();
    let mut found = Verdicts::new(alloc);
    let mut rest = candidates;
    while let Some(view) = rest.pop_first() {
        found.add(view, verdict_for(views, view))?;
    }
    Ok(found)
}

/// Puts the verdicts on these views off.
fn put_off_verdicts<S: Scheme<D> + Drop, L: Elector<S, D>, D: Digest>(
    views: &mut Views<S, L, D>,
    waiting: &[View],
) -> Result<(), AllocError>
    ensures { OnOk result (above.AtEach S.Scheme L.Elector views.old (λ s h. above.Keeps S.Scheme L.Elector s views.new (put_off waiting.now h))) }
{
    for view in waiting {
        views.put_off_verdict(*view)?;
    }
    Ok(())
}

/// Adds the views of these proposals.
fn keep<D: Digest>(candidates: &mut BTreeSet<View>, ready: &[Proposal<D>]) -> Result<(), AllocError>
    ensures { OnOk result ((p : Proposal D) → Contains ready.now p → IsTrue (contains nat_cmp candidates.new p.round.view)) }
{
    for proposal in ready {
        candidates.insert(proposal.view())?;
    }
    Ok(())
}

/// Adds the view of which something was learnt and the view behind it, whose verdict may have waited for that.
pub(super) fn wake(candidates: &mut BTreeSet<View>, view: View) -> Result<(), AllocError>
    ensures { OnOk result (IsWoken candidates.old candidates.new view) }
{
    candidates.insert(view)?;
    let next = View::new(view.get().saturating_add(1));
    candidates.insert(next)?;
    Ok(())
}
