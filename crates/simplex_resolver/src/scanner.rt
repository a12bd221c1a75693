//! What came to a member, and what a scan over it asks for.

ghost use Rattle.std.specs.Prelude.{◌≡◌, ◌<◌, ◌+◌, ◌^◌, IsTrue, false};
ghost use Rattle.types_core.specs.Positions.{HasRoom};
ghost use Rattle.simplex_resolver.specs.Earlier.{earlier};

use crate::effect::{Effect, push_if};
use crate::held::Held;
use crate::terms::scan_start;
use messages_certificates::{Certificate, Notarization};
use std::alloc::{AllocError, Global};
use types_core::{Digest, Scheme, TermLength, View, Viewable, Write};

/// The certificates and verdicts that came to a member, and the effects that follow from each. After an `Err` of one of its
/// calls it may be used no more.
#[derive(Drop)]
pub(crate) struct Scanner {
    pub(crate) held: Held,
    /// The highest view of a certificate, or 0.
    current: View,
    /// The highest view that was finalized or certified, or 0.
    pub(crate) floor: View,
    /// Whether the replay has ended.
    live: bool,
    ghost some: { 0 < held.length },
    ghost current_room: { HasRoom held.length current },
    ghost floor_room: { HasRoom held.length floor },
}

impl Scanner {
    ghost use Rattle.std.specs.Prelude.{◌≡◌, ◌↔◌, ◌⊎◌, ◌≤◌, ◌+◌, ◌-◌, ◌++◌, ◌∷◌, [], ℕ, List, not, nat_lt, ◌&&◌, OnOk, IfOk, IsTrue, true, false, map};
    ghost use Rattle.types_core.specs.Positions.{IsTermStart, term_index};
    ghost use Rattle.messages_certificates.specs.Certificate.{any_certificate_spelling, certificate_round, as_notarization};
    ghost use Rattle.simplex_resolver.specs.declared.effect.Effect.{Effect};
    ghost use Rattle.simplex_resolver.specs.RepairHistory.{Item, Nullified, Notarized, Finalized, Judged, Replayed, item_of, covered, floor, live};
    ghost use Rattle.simplex_resolver.specs.Outstanding.{Gives, Scans, ScansBehind, AreMissing, fetch_failed, scanned};
    ghost use Rattle.simplex_resolver.specs.Keeps.{Stands, AtEachScan, scan_length};
    ghost use Rattle.simplex_resolver.specs.Gaps.{IsAnchorGap, IsFailedGap, IsFirstAbove, IsGap};

    /// Nothing has come, and the replay has not ended.
    pub(crate) fn new(alloc: Global, term_length: TermLength) -> Self
        ensures keeps { Stands term_length result [] }
        ensures length { scan_length result ≡ term_length }
    {
        // The proof takes from the number how large it can be.
        let _views = term_length.get();
        Scanner {
            held: Held::new(alloc, term_length),
            current: View::zero(),
            floor: View::zero(),
            live: false,
        }
    }

    /// Takes a certificate, and tells what follows, in order.
    pub(crate) fn updated<S: Scheme<D>, D: Digest>(
        &mut self,
        alloc: Global,
        certificate: &Certificate<S, D>,
    ) -> Result<Vec<Effect>, AllocError>
        requires { HasRoom (scan_length self.old) (certificate_round certificate.now).view }
        ensures keeps { OnOk result (AtEachScan self.old
            (λ views h. Stands views self.new (item_of (any_certificate_spelling D.spelling S.Certificate.spelling) certificate.now ∷ h))) }
        ensures gives { IfOk result (λ given.
            AtEachScan self.old
            (λ views h. Gives views h (item_of (any_certificate_spelling D.spelling S.Certificate.spelling) certificate.now) given.items)) }
        ensures length { scan_length self.new ≡ scan_length self.old }
    {
        let view = certificate.view();
        match certificate {
            Certificate::Notarization(_) => self.notarized(alloc, view),
            Certificate::Nullification(_) => self.nullified(alloc, view, certificate),
            Certificate::Finalization(_) => self.finalized(alloc, view, certificate),
        }
    }

    /// Takes a verdict on a notarization, which may come before the notarization itself, and tells what follows, in
    /// order.
    pub(crate) fn certified<S: Scheme<D>, D: Digest>(
        &mut self,
        alloc: Global,
        notarization: Notarization<S, D>,
        success: bool,
    ) -> Result<Vec<Effect>, AllocError>
        requires { HasRoom (scan_length self.old) notarization.proposal.round.view }
        ensures keeps { OnOk result (AtEachScan self.old (λ views h.
            Stands views self.new (Judged notarization.proposal.round.view
            (any_certificate_spelling D.spelling S.Certificate.spelling (as_notarization notarization)) success ∷ h))) }
        ensures gives { IfOk result (λ given.
            AtEachScan self.old (λ views h.
            Gives views h (Judged notarization.proposal.round.view
            (any_certificate_spelling D.spelling S.Certificate.spelling (as_notarization notarization)) success) given.items)) }
        ensures length { scan_length self.new ≡ scan_length self.old }
    {
        let view = notarization.view();
        if success {
            let certificate = Certificate::Notarization(notarization);
            self.succeeded(alloc, view, &certificate)
        } else {
            self.failed(alloc, view)
        }
    }

    /// Takes the end of the replay, and tells what is to be fetched. It looks at each false verdict above the floor.
    pub(crate) fn replayed(&mut self, alloc: Global) -> Result<Vec<Effect>, AllocError>
        ensures keeps { OnOk result (AtEachScan self.old (λ views h. Stands views self.new (Replayed ∷ h))) }
        ensures gives { IfOk result (λ given. AtEachScan self.old (λ views h. Gives views h Replayed given.items)) }
        ensures length { scan_length self.new ≡ scan_length self.old }
    {
        let mut effects = Vec::new(alloc);
        let went = self.scanned();
        self.live = true;
        self.scan(&mut effects, self.current, went, false)?;
        self.ask_for_failed(&mut effects)?;
        Ok(effects)
    }

    /// Takes a nullification.
    #[tactic(auto, using(crate::proofs::TermStarts::room_kept, crate::proofs::TermStarts::room_of_max))]
    fn nullified<W: Write>(
        &mut self,
        alloc: Global,
        view: View,
        nullification: &W,
    ) -> Result<Vec<Effect>, AllocError>
        requires { HasRoom (scan_length self.old) view }
        ensures keeps { OnOk result (AtEachScan self.old (λ views h. Stands views self.new (Nullified view (W.spelling nullification.now) ∷ h))) }
        ensures gives { IfOk result
            (λ given. AtEachScan self.old (λ views h. Gives views h (Nullified view (W.spelling nullification.now)) given.items)) }
        ensures length { scan_length self.new ≡ scan_length self.old }
    {
        let mut effects = Vec::new(alloc);
        let went = self.scanned();
        let end = view.term_end(self.held.length);
        self.current = self.current.max(view);
        let reaches = self.held.take_nullification(alloc, view, nullification)?;
        push_if(
            reaches,
            &mut effects,
            Effect::settled_nullifications(view, end),
        )?;
        self.scan(&mut effects, view, went, false)?;
        Ok(effects)
    }

    /// Takes a notarization.
    #[tactic(auto, using(crate::proofs::TermStarts::room_kept, crate::proofs::TermStarts::room_of_max))]
    fn notarized(&mut self, alloc: Global, view: View) -> Result<Vec<Effect>, AllocError>
        requires { HasRoom (scan_length self.old) view }
        ensures keeps { OnOk result (AtEachScan self.old (λ views h. Stands views self.new (Notarized view ∷ h))) }
        ensures gives { IfOk result (λ given. AtEachScan self.old (λ views h. Gives views h (Notarized view) given.items)) }
        ensures length { scan_length self.new ≡ scan_length self.old }
    {
        let mut effects = Vec::new(alloc);
        let went = self.scanned();
        self.current = self.current.max(view);
        let settles = self.held.take_notarization(view)?;
        push_if(settles, &mut effects, Effect::settled_notarization(view))?;
        self.scan(&mut effects, view, went, false)?;
        Ok(effects)
    }

    /// Takes a finalization.
    #[tactic(auto, using(crate::proofs::TermStarts::room_kept, crate::proofs::TermStarts::room_of_max))]
    fn finalized<W: Write>(
        &mut self,
        alloc: Global,
        view: View,
        finalization: &W,
    ) -> Result<Vec<Effect>, AllocError>
        requires { HasRoom (scan_length self.old) view }
        ensures keeps { OnOk result (AtEachScan self.old (λ views h. Stands views self.new (Finalized view (W.spelling finalization.now) ∷ h))) }
        ensures gives { IfOk result
            (λ given. AtEachScan self.old (λ views h. Gives views h (Finalized view (W.spelling finalization.now)) given.items)) }
        ensures length { scan_length self.new ≡ scan_length self.old }
    {
        let mut effects = Vec::new(alloc);
        let went = self.scanned();
        self.current = self.current.max(view);
        self.held.take_finalization(alloc, view, finalization)?;
        effects.push(Effect::Finalized(self.held.last_finalized))?;
        let raised = self.floor < view;
        self.floor = self.floor.max(view);
        push_if(raised, &mut effects, Effect::Raised(view))?;
        self.scan(&mut effects, view, went, raised)?;
        Ok(effects)
    }

    /// Takes a true verdict.
    #[tactic(auto, using(crate::proofs::TermStarts::room_kept, crate::proofs::TermStarts::room_of_max))]
    fn succeeded<W: Write>(
        &mut self,
        alloc: Global,
        view: View,
        notarization: &W,
    ) -> Result<Vec<Effect>, AllocError>
        requires { HasRoom (scan_length self.old) view }
        ensures keeps { OnOk result (AtEachScan self.old (λ views h. Stands views self.new (Judged view (W.spelling notarization.now) true ∷ h))) }
        ensures gives { IfOk result
            (λ given. AtEachScan self.old (λ views h. Gives views h (Judged view (W.spelling notarization.now) true) given.items)) }
        ensures length { scan_length self.new ≡ scan_length self.old }
    {
        let mut effects = Vec::new(alloc);
        let went = self.scanned();
        self.held.take_success(alloc, view, notarization)?;
        effects.push(Effect::settled_notarization(view))?;
        let raised = self.floor < view;
        self.floor = self.floor.max(view);
        push_if(raised, &mut effects, Effect::Raised(view))?;
        self.scan(&mut effects, view, went, raised)?;
        Ok(effects)
    }

    /// Takes a false verdict.
    #[tactic(auto, using(crate::proofs::TermStarts::room_kept, crate::proofs::TermStarts::room_of_max))]
    fn failed(&mut self, alloc: Global, view: View) -> Result<Vec<Effect>, AllocError>
        ensures keeps { OnOk result ((bytes : List ℕ) → AtEachScan self.old (λ views h. Stands views self.new (Judged view bytes false ∷ h))) }
        ensures gives { IfOk result
            (λ given. (bytes : List ℕ) → AtEachScan self.old (λ views h. Gives views h (Judged view bytes false) given.items)) }
        ensures length { scan_length self.new ≡ scan_length self.old }
    {
        let mut effects = Vec::new(alloc);
        let missing = self.is_missing(view);
        self.held.take_failure(view)?;
        effects.push(Effect::settled_notarization(view))?;
        push_if(missing, &mut effects, Effect::fetch_failed(view))?;
        Ok(effects)
    }

    /// Whether the replay has ended, the view is above the floor and no nullification covers it.
    fn is_missing(&self, view: View) -> bool
        ensures { AtEachScan self.now (λ views h. result ≡ (live h && (nat_lt (floor h) view && not (covered views h view)))) }
    {
        if !self.live {
            return false;
        }
        if view <= self.floor {
            return false;
        }
        !self.held.is_covered(view)
    }

    /// How far scans went: to the highest certificate's view, and nowhere before the replay has ended.
    fn scanned(&self) -> View
        ensures answer { AtEachScan self.now (λ views h. result ≡ scanned h) }
        ensures room { HasRoom (scan_length self.now) result }
    {
        if self.live {
            self.current
        } else {
            View::zero()
        }
    }

    /// The scan behind what was taken, once the replay has ended: asks for what is missing from where it begins.
    fn scan(
        &self,
        effects: &mut Vec<Effect>,
        cause: View,
        went: View,
        raised: bool,
    ) -> Result<(), AllocError>
        requires { HasRoom (scan_length self.now) went }
        ensures { OnOk result ((views : ℕ) (h : List Item) (x : Item)
            → Stands views self.now (x ∷ h)
            → went ≡ scanned h
            → raised ≡ nat_lt (floor h) (floor (x ∷ h))
            → (asked : List Effect) × ScansBehind views h x cause asked × (effects.new.items ≡ effects.old.items ++ asked)) }
    {
        if self.live {
            let start = scan_start(went, self.floor, raised, self.held.length);
            self.ask_from(effects, cause, start)?;
        }
        Ok(())
    }

    /// Asks for what is missing from the view on, below the highest certificate's view: gap by gap.
    fn ask_from(
        &self,
        effects: &mut Vec<Effect>,
        cause: View,
        start: View,
    ) -> Result<(), AllocError>
        requires { self.now.floor < start }
        ensures { OnOk result (AtEachScan self.now
            (λ views h. (asked : List Effect) × Scans views h cause start asked × (effects.new.items ≡ effects.old.items ++ asked))) }
    {
        let mut from = start;
        'gaps: while let Some(first) = self.held.first_missing(from, self.current) {
            let last = self.held.last_missing(first, self.current);
            effects.push(Effect::fetch(first, last, cause))?;
            from = last.next();
        }
        Ok(())
    }

    /// Asks for each view with a false verdict that is above the floor and that no nullification covers.
    fn ask_for_failed(&self, effects: &mut Vec<Effect>) -> Result<(), AllocError>
        ensures { OnOk result (AtEachScan self.now (λ views h.
            (missing : List ℕ) × AreMissing views h (floor h) missing × (effects.new.items ≡ effects.old.items ++ map fetch_failed missing))) }
    {
        let mut last = self.floor;
        while let Some(view) = self.held.next_failed(last) {
            let missing = !self.held.is_covered(view);
            push_if(missing, effects, Effect::fetch_failed(view))?;
            last = view;
        }
        Ok(())
    }

    /// How many terms begin behind that of the floor, up to the highest certificate's view.
    pub(crate) fn terms_behind_floor(&self) -> u64
        ensures { result ≡ term_index self.now.held.length self.now.current - term_index self.now.held.length self.now.floor }
    {
        let last = self.current.term_index(self.held.length);
        last.saturating_sub(self.floor.term_index(self.held.length))
    }

    /// The first view above this one that is to be repaired, by what is held.
    pub(crate) fn first_gap(&self, last: View) -> Option<View>
        ensures { IsFirstAbove (IsGap self.now) last result }
    {
        if !self.live {
            return None;
        }
        earlier(self.first_anchor(last), self.first_failed(last))
    }

    /// The first view above this one that no nullification covers, of those that are due since a later one has a certificate.
    fn first_anchor(&self, last: View) -> Option<View>
        ensures { IsFirstAbove (IsAnchorGap self.now) last result }
    {
        if last >= self.current {
            return None;
        }
        let mut before = self.before_anchors(last);
        while let Some(first) = self.held.first_uncovered(before, self.current) {
            if self.is_anchor(first) {
                return Some(first);
            }
            // What a nullification covers reaches to a term's end. So this isn't come to; but no type says so.
            before = first.term_end(self.held.length);
        }
        None
    }

    /// Up to where behind this view none is due since a later one has a certificate.
    fn before_anchors(&self, last: View) -> View
        requires { last < self.now.current }
        ensures behind { last ≤ result }
        ensures above { self.now.floor ≤ result }
        ensures none { (v : ℕ) → last < v → v ≤ result → ¬ IsAnchorGap self.now v }
    {
        if last <= self.floor {
            return self.floor;
        }
        last.term_end(self.held.length)
    }

    /// Whether the view is the first above the floor, or starts a term.
    fn is_anchor(&self, view: View) -> bool
        ensures { IsTrue result ↔ ((view ≡ self.now.floor + 1) ⊎ IsTermStart self.now.held.length view) }
    {
        view == self.floor.next() || view.is_term_start(self.held.length)
    }

    /// The first view above this one with a false verdict that no nullification covers.
    fn first_failed(&self, last: View) -> Option<View>
        ensures { IsFirstAbove (IsFailedGap self.now) last result }
    {
        let mut above = self.before_failed(last);
        while let Some(view) = self.held.next_failed(above) {
            if is_last(view) {
                return None;
            }
            if self.held.is_bare(view) {
                return Some(view);
            }
            above = view;
        }
        None
    }

    /// Up to where behind this view none is due for a false verdict.
    fn before_failed(&self, last: View) -> View
        ensures behind { last ≤ result }
        ensures above { self.now.floor ≤ result }
        ensures none { (v : ℕ) → last < v → v ≤ result → ¬ IsFailedGap self.now v }
    {
        if last < self.floor {
            return self.floor;
        }
        last
    }
}

/// The earlier of two views, where one is there.
fn earlier(one: Option<View>, other: Option<View>) -> Option<View>
    ensures { result ≡ earlier one other }
{
    let Some(view) = one else {
        return other;
    };
    match other {
        Some(second) if second < view => other,
        _ => one,
    }
}

/// Whether no view comes behind this one.
fn is_last(view: View) -> bool
    ensures last { IsTrue result → view + 1 ≡ 2 ^ 64 }
    ensures fits { result ≡ false → view + 1 < 2 ^ 64 }
{
    view.get() == u64::MAX
}
