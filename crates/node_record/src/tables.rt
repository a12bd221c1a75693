//! What a node remembers of what it asked for, of when members were heard, and of the time.

ghost use Rattle.std.specs.Prelude.{◌≡◌, ◌≢◌, ◌↔◌, ◌⊎◌, ◌&&◌, ◌≤◌, ◌<◌, ◌∷◌, [], ℕ, Bool, Option, Some, None, false, option_map, Contains, IsTrue, IfOk, IfSome, OnOk, OnErr, MatchOption};
ghost use Rattle.std.specs.BTreeSet.{contains};
ghost use Rattle.std.specs.Ordering.{nat_cmp};
ghost use Rattle.types_core.specs.declared.context.Context.{Context};
ghost use Rattle.types_core.specs.declared.proposal.Proposal.{Proposal};
ghost use Rattle.messages_certificates.specs.declared.certificate.Certificate.{Certificate};
ghost use Rattle.messages_certificates.specs.declared.nullify.Nullify.{Nullify};
ghost use Rattle.simplex_messages.specs.declared.vote.Vote.{Vote};
ghost use Rattle.simplex_messages.specs.VoteParts.{vote_signer};
ghost use Rattle.simplex_resolver.specs.declared.ask.Until.TheVariants as until;
ghost use Rattle.simplex_member.specs.declared.asked.Asked.{Asked};
ghost use Rattle.simplex_member.specs.Asked.{HasNumber, IsAwaited, IsJudged, IsPending, asks_of, build_at, check_at, goes_again, last_heard, next_number, sent_of, was_repeated};
ghost use Rattle.simplex_member.specs.Layers.{finalized_of, latest};
ghost use Rattle.simplex_member.specs.Point.{History, Outcome, Opened, Told, Heard, Built, Checked, AsksBuild, AsksVerify, AsksCertify, GivesBack, LeavesBehind, Asks, Repeats};
ghost use Rattle.simplex_member.specs.Setup.{Setup};
ghost use Rattle.node_record.specs.Tables.{AtEach, IsFirstBuild, KeepsTables, asked_cmp, build_parts, verdicts_of};

use simplex_member::Asked;
use simplex_resolver::{Ask, Until};
use std::alloc::{AllocError, Global};
use std::collections::{BTreeMap, BTreeSet};
use std::ops::Bound;
use types_core::{Context, Digest, Participant, PublicKey, Scheme, View};
use voter_rules::config::Again;

/// A build that was asked for.
#[derive(Clone, Copy)]
pub struct Building<D: Digest, P: PublicKey> {
    /// Whether it is for a handoff.
    pub handoff: bool,
    /// What is to be built on.
    pub context: Context<D, P>,
}

/// What a node remembers since its opening: which builds and verifications stand, by their numbers; the views
/// on which a verdict was asked for, and what other members were asked, of views that aren't final; when
/// each member was heard last; and the time. Each call takes a logarithmic time at most.
#[derive(Drop)]
pub struct Tables<S: Scheme<D>, D: Digest> {
    /// The moment of the opening.
    pub(crate) opened: u64,
    /// The latest moment.
    pub(crate) moment: u64,
    /// The number of the next request.
    pub(crate) number: u64,
    /// The builds that stand, by their numbers.
    pub(crate) builds: BTreeMap<u64, Building<D, S::PublicKey>>,
    /// The views of the proposals that are being verified, by the numbers of the requests.
    pub(crate) checks: BTreeMap<u64, View>,
    /// The views on which a verdict was asked for.
    pub(crate) verdicts: BTreeSet<View>,
    /// When a vote of a member was accepted last.
    pub(crate) heard: BTreeMap<Participant, u64>,
    /// What other members were asked.
    pub(crate) asks: BTreeSet<Asked>,
    /// What of that was asked since the time was told last.
    pub(crate) asks_now: BTreeSet<Asked>,
    /// Whether a nullify was repeated since then.
    pub(crate) repeated: bool,
}

impl<S: Scheme<D>, D: Digest> Tables<S, D> {
    /// What a node remembers that is opened at this moment.
    pub fn new(alloc: Global, now: u64) -> Self
        ensures { (low : ℕ) → KeepsTables low result (Opened now ∷ []) }
    {
        Tables {
            opened: now,
            moment: now,
            number: 0,
            builds: BTreeMap::new(alloc),
            checks: BTreeMap::new(alloc),
            verdicts: BTreeSet::new(alloc),
            heard: BTreeMap::new(alloc),
            asks: BTreeSet::new(alloc),
            asks_now: BTreeSet::new(alloc),
            repeated: false,
        }
    }

    /// The latest moment.
    pub fn moment(&self) -> u64
        ensures { AtEach self.now (λ low h. result ≡ latest h) }
    {
        self.moment
    }

    /// Notes the time.
    pub fn tell(&mut self, now: u64)
        ensures { AtEach self.old (λ low h. KeepsTables low self.new (Told now ∷ h)) }
    {
        self.moment = now;
        self.asks_now.clear();
        self.repeated = false;
    }

    /// When the member was heard last: at its last accepted vote, or at the opening.
    pub fn last_heard(&self, member: Participant) -> u64
        ensures { AtEach self.now (λ low h. result ≡ last_heard h member) }
    {
        match self.heard.get(&member) {
            Some(moment) => *moment,
            None => self.opened,
        }
    }

    /// Notes that a vote of the member was accepted.
    pub fn hear(&mut self, member: Participant) -> Result<(), AllocError>
        ensures keeps { OnOk result (AtEach self.old
            (λ low h. (v : Vote S D S.PublicKey S.Signature S.Certificate) → vote_signer v ≡ member → KeepsTables low self.new (Heard v ∷ h))) }
        ensures memory { OnErr result (AtEach self.old (λ low h. KeepsTables low self.new h)) }
    {
        self.heard.insert(member, self.moment)?;
        Ok(())
    }

    /// Whether a number is left for a request.
    pub fn has_number(&self) -> bool
        ensures { AtEach self.now (λ low h. IsTrue result ↔ HasNumber h) }
    {
        self.number < u64::MAX
    }

    /// Notes that a build is asked for, under the next number, which it answers.
    pub fn add_build(&mut self, building: Building<D, S::PublicKey>) -> Result<u64, AllocError>
        requires { AtEach self.old (λ low h. HasNumber h) }
        ensures number { IfOk result (λ number. AtEach self.old (λ low h. number ≡ next_number h)) }
        ensures keeps { IfOk result
            (λ number. AtEach self.old (λ low h. KeepsTables low self.new (AsksBuild number building.handoff building.context ∷ h))) }
        ensures memory { OnErr result (AtEach self.old (λ low h. KeepsTables low self.new h)) }
    {
        let number = self.number;
        self.builds.insert(number, building)?;
        self.number = number.saturating_add(1);
        Ok(number)
    }

    /// The build that stands under this number.
    pub fn build(&self, number: u64) -> Option<Building<D, S::PublicKey>>
        ensures { AtEach self.now (λ low h. option_map build_parts result ≡ build_at h number) }
    {
        self.builds.get(&number).copied()
    }

    /// The first build that stands under this number or a later one.
    pub fn build_from(&self, from: u64) -> Option<(u64, Building<D, S::PublicKey>)>
        ensures behind { IfSome result (λ p. from ≤ p.0) }
        ensures first { AtEach self.now
            (λ low h. MatchOption result ((n : ℕ) → from ≤ n → build_at h n ≡ None) (λ p. IsFirstBuild h from p.0 (build_parts p.1))) }
    {
        match self
            .builds
            .range((Bound::Included(from), Bound::Unbounded))
            .next()
        {
            Some((number, building)) => Some((*number, *building)),
            None => None,
        }
    }

    /// Notes that no build stands under this number any more: it was answered, given back, or left behind.
    pub fn end_build(&mut self, number: u64)
        ensures built { AtEach self.old (λ low h.
            (handoff : Bool) (context : Context D S.PublicKey) (payload : Option D) (took : Bool)
            → KeepsTables low self.new (Built number handoff context payload took ∷ h)) }
        ensures given_back { AtEach self.old (λ low h. (view : ℕ) → KeepsTables low self.new (GivesBack number view ∷ h)) }
        ensures left_behind { AtEach self.old (λ low h. KeepsTables low self.new (LeavesBehind number ∷ h)) }
    {
        let _ = self.builds.remove(&number);
    }

    /// Notes that a proposal of the view is to be verified, under the next number, which it answers.
    pub fn add_check(&mut self, view: View) -> Result<u64, AllocError>
        requires { AtEach self.old (λ low h. HasNumber h) }
        ensures number { IfOk result (λ number. AtEach self.old (λ low h. number ≡ next_number h)) }
        ensures keeps { IfOk result (λ number.
            AtEach self.old (λ low h.
            (context : Context D S.PublicKey) (p : Proposal D)
            → context.round.view ≡ view
            → KeepsTables low self.new (AsksVerify number context p ∷ h))) }
        ensures memory { OnErr result (AtEach self.old (λ low h. KeepsTables low self.new h)) }
    {
        let number = self.number;
        self.checks.insert(number, view)?;
        self.number = number.saturating_add(1);
        Ok(number)
    }

    /// The view of the proposal that is to be verified under this number.
    pub fn check(&self, number: u64) -> Option<View>
        ensures { AtEach self.now (λ low h. result ≡ check_at h number) }
    {
        self.checks.get(&number).copied()
    }

    /// Notes that the verification under this number was answered.
    pub fn end_check(&mut self, number: u64)
        ensures { AtEach self.old
            (λ low h. (view : ℕ) (answer : Option Bool) (outcome : Outcome) → KeepsTables low self.new (Checked number view answer outcome ∷ h)) }
    {
        let _ = self.checks.remove(&number);
    }

    /// Notes that a verdict on the view is asked for.
    pub fn add_verdict(&mut self, view: View) -> Result<(), AllocError>
        ensures keeps { OnOk result
            (AtEach self.old (λ low h. (p : Proposal D) → p.round.view ≡ view → low < view → KeepsTables low self.new (AsksCertify p ∷ h))) }
        ensures memory { OnErr result (AtEach self.old (λ low h. KeepsTables low self.new h)) }
    {
        put_view(&mut self.verdicts, view)
    }

    /// Whether a verdict on the view was asked for, and the view lies above the last final one. Where none is
    /// recorded yet, the request stands.
    pub fn awaits(&self, view: View) -> bool
        ensures asked { AtEach self.now (λ low h. IsTrue result ↔ ((low < view) × Contains (verdicts_of h) view)) }
        ensures awaited { (s : Setup S D S.Certificate) (h : History S D S.PublicKey S.Signature S.Certificate)
            → KeepsTables (finalized_of s h) self.now h
            → ¬ IsJudged s h view
            → IsTrue result ↔ IsAwaited s h view }
    {
        self.verdicts.contains(&view)
    }

    /// Notes that this is asked of other members, of a view that isn't final.
    pub fn add_ask(&mut self, asked: Asked) -> Result<(), AllocError>
        ensures keeps { OnOk result
            (AtEach self.old (λ low h. low < asked.view → KeepsTables low self.new (Asks asked.view asked.ask asked.to ∷ h))) }
        ensures memory { OnErr result (AtEach self.old (λ low h. KeepsTables low self.new h)) }
    {
        let is_new = put_ask(&mut self.asks_now, asked.view, asked.ask, asked.to)?;
        match put_ask(&mut self.asks, asked.view, asked.ask, asked.to) {
            Ok(_) => Ok(()),
            Err(error) => {
                if is_new {
                    take_ask(&mut self.asks_now, asked);
                }
                Err(error)
            }
        }
    }

    /// Notes that a nullify was repeated.
    pub fn repeat(&mut self)
        ensures { AtEach self.old (λ low h.
            (v : Nullify S D S.PublicKey S.Signature S.Certificate)
            (best : Option (Certificate S D S.PublicKey S.Signature S.Certificate))
            → KeepsTables low self.new (Repeats v best ∷ h)) }
    {
        self.repeated = true;
    }

    /// Whether asks go again, where they do with a repeated nullify: one was repeated since the time was told last.
    pub fn asks_again(&self, again: Again) -> bool
        ensures { AtEach self.now (λ low h. result ≡ (goes_again again && was_repeated h)) }
    {
        match again {
            Again::Once => false,
            Again::WithNullify => self.repeated,
        }
    }

    /// Whether this went out for now, of a view that isn't final: it was asked; since the time was told last, where asks go again.
    pub fn was_sent(&self, asked: &Asked, again: Again) -> bool
        ensures { AtEach self.now (λ low h.
            (s : Setup S D S.Certificate) → s.repair.again ≡ again → low < asked.now.view → IsTrue result ↔ Contains (sent_of s h) asked.now) }
    {
        if self.asks_again(again) {
            self.asks_now.contains(asked)
        } else {
            self.asks.contains(asked)
        }
    }

    /// What was asked until a finalization, of views that aren't final. It goes over all that was asked of these.
    ///
    /// # Errors
    ///
    /// Where memory is refused.
    pub fn pending(&self, alloc: Global) -> Result<Vec<Asked>, AllocError>
        ensures { IfOk result (λ pending.
            AtEach self.now (λ low h. (a : Asked)
            → Contains pending.items a ↔ ((low < a.view) × IsPending h a.view a.ask a.to))) }
    {
        pending_of(&self.asks, alloc)
    }

    /// Whether this was asked before, of a view that isn't final.
    pub fn was_asked(&self, asked: &Asked) -> bool
        ensures { AtEach self.now (λ low h. IsTrue result ↔ ((low < asked.now.view) × Contains (asks_of h) asked.now)) }
    {
        self.asks.contains(asked)
    }

    /// Forgets the asks and the requests for verdicts up to a view, which is final now: none of them is held any more.
    pub fn forget(&mut self, last: View)
        ensures { AtEach self.old (λ low h. low ≤ last → KeepsTables last self.new h) }
    {
        forget_views(&mut self.verdicts, last);
        forget_asks(&mut self.asks, last);
    }
}

/// Puts the view in.
fn put_view(views: &mut BTreeSet<View>, view: View) -> Result<(), AllocError>
    ensures one_more { OnOk result ((u : ℕ) → IsTrue (contains nat_cmp views.new u) ↔ (IsTrue (contains nat_cmp views.old u) ⊎ (view ≡ u))) }
    ensures memory { OnErr result ((u : ℕ) → contains nat_cmp views.new u ≡ contains nat_cmp views.old u) }
{
    views.insert(view)?;
    Ok(())
}

/// Puts an ask in: whether it is new.
fn put_ask(
    asks: &mut BTreeSet<Asked>,
    view: View,
    ask: Ask,
    to: Option<Participant>,
) -> Result<bool, AllocError>
    ensures is_new { IfOk result (λ is_new. IsTrue is_new ↔ ¬ IsTrue (contains asked_cmp asks.old (record { view = view; ask = ask; to = to }))) }
    ensures one_more { OnOk result ((a : Asked)
        → IsTrue (contains asked_cmp asks.new a) ↔
        (IsTrue (contains asked_cmp asks.old a) ⊎ (record { view = view; ask = ask; to = to } ≡ a))) }
    ensures known { IfOk result (λ is_new. is_new ≡ false → (a : Asked) → contains asked_cmp asks.new a ≡ contains asked_cmp asks.old a) }
    ensures memory { OnErr result ((a : Asked) → contains asked_cmp asks.new a ≡ contains asked_cmp asks.old a) }
{
    Ok(asks.insert(Asked { view, ask, to })?)
}

/// Takes an ask out.
fn take_ask(asks: &mut BTreeSet<Asked>, asked: Asked)
    ensures { (a : Asked) → IsTrue (contains asked_cmp asks.new a) ↔ (IsTrue (contains asked_cmp asks.old a) × (a ≢ asked)) }
{
    let _ = asks.remove(&asked);
}

/// The asks that stand until a finalization.
fn pending_of(asks: &BTreeSet<Asked>, alloc: Global) -> Result<Vec<Asked>, AllocError>
    ensures { IfOk result (λ pending. (a : Asked)
        → Contains pending.items a ↔ (IsTrue (contains asked_cmp asks.now a) × (a.ask.until ≡ until.Finalization))) }
{
    let mut pending = Vec::new(alloc);
    for asked in asks {
        if asked.ask.until == Until::Finalization {
            pending.push(*asked)?;
        }
    }
    Ok(pending)
}

/// Takes the views up to this one out.
fn forget_views(views: &mut BTreeSet<View>, last: View)
    ensures gone { (u : ℕ) → u ≤ last → ¬ IsTrue (contains nat_cmp views.new u) }
    ensures kept { (u : ℕ) → last < u → contains nat_cmp views.new u ≡ contains nat_cmp views.old u }
{
    while let Some(&first) = views.first() {
        if last < first {
            return;
        }
        views.remove(&first);
    }
}

/// Takes the asks of views up to this one out.
fn forget_asks(asks: &mut BTreeSet<Asked>, last: View)
    ensures gone { (a : Asked) → a.view ≤ last → ¬ IsTrue (contains asked_cmp asks.new a) }
    ensures kept { (a : Asked) → last < a.view → contains asked_cmp asks.new a ≡ contains asked_cmp asks.old a }
{
    while let Some(&first) = asks.first() {
        if last < first.view {
            return;
        }
        asks.remove(&first);
    }
}
