//! The votes of one round, in a row for each signer.

ghost use Rattle.std.specs.Prelude.{◌≡◌, ◌↔◌, ◌++◌, ◌||◌, IsTrue, All, ◌≤◌, ◌<◌, ◌+◌, ◌∷◌, ◌&&◌, [], ℕ, List, Bool, Option, Some, None, MatchOption, filter, find, map, not, length, is_none, option_map, IfOk, OnOk, OnErr, slice_get, slice_index_or, slice_set, if◌then◌else◌, true, false};
ghost use Rattle.std.specs.List.Sorted.{IsStrictlyIncreasing};
ghost use Rattle.std.specs.Option.{option_copied};
ghost use Rattle.types_terms.specs.declared.kind.Kind.{Kind};
ghost use Rattle.types_terms.specs.declared.kind.Kind.TheVariants.{Notarization};
ghost use Rattle.simplex_messages.specs.declared.vote.Vote.{Vote};
ghost use Rattle.simplex_messages.specs.VoteParts.{vote_signer};
ghost use Rattle.batcher_rows.specs.Votes.{is_kind, is_in_way, is_candidate, vote_kind, vote_attestation, vote_proposal};
ghost use Rattle.batcher_rows.specs.declared.rows.Row.{Row};
ghost use Rattle.batcher_rows.specs.Rows.{head_of, is_aside, OthersStay, IsCounted, is_marked, mark_of, stands, vote_in, votes_in, counted_in, tally_at, with_cell, each_cell, kept, settled, members_of, newest_of, votes_of, KindIs, AreNewest, NoneInWay, StrangersFree, blocks, blocks_at, PlacesStay, RowsStay, pushed, settled_waiting, settled_verified};

use crate::vote_kinds::{attestation_of, is_for, is_in_way, kind_of};
use batcher_assembly::is_listed;
use simplex_messages::Vote;
use std::alloc::{AllocError, Global};
use types_core::{Attestation, Attributable, Digest, Participant, Proposal, Scheme};
use types_terms::Kind;

/// Whether a vote counts for a certificate.
#[derive(Clone, Copy)]
pub(crate) enum Mark {
    /// It doesn't.
    Aside,
    /// It waits to be judged.
    Waiting,
    /// It is known to attest.
    Verified,
}

/// A vote, and whether it counts.
#[derive(Drop)]
pub(crate) struct Held<S: Scheme<D>, D: Digest> {
    vote: Vote<S, D>,
    mark: Mark,
}

/// The votes of one signer.
#[derive(Drop)]
pub(crate) struct Row<S: Scheme<D>, D: Digest> {
    /// Its newest notarize.
    notarize: Option<Held<S, D>>,
    /// Its newest nullify or finalize.
    other: Option<Held<S, D>>,
}

/// How many votes of a kind count.
#[derive(Clone, Copy)]
pub struct Tally {
    /// Those that wait to be judged.
    pub waiting: usize,
    /// Those that are known to attest.
    pub verified: usize,
    /// A certificate of the kind was recorded or made.
    pub complete: bool,
}

/// The votes of one round: a row for each member by its index, and behind them one for each vote of a stranger.
#[derive(Drop)]
pub struct Rows<S: Scheme<D>, D: Digest> {
    members: u32,
    rows: Vec<Row<S, D>>,
    notarizes: Tally,
    nullifies: Tally,
    finalizes: Tally,
}

impl Mark {
    /// The mark of a vote that came.
    const fn new(counts: bool, verified: bool) -> Mark
        ensures { result ≡ mark_of counts verified }
    {
        if !counts {
            return Mark::Aside;
        }
        if verified {
            Mark::Verified
        } else {
            Mark::Waiting
        }
    }

    /// Whether the vote doesn't count.
    const fn is_aside(self) -> bool
        ensures { result ≡ is_aside self }
    {
        matches!(self, Mark::Aside)
    }

    /// Whether the vote is known to attest, or whether it waits.
    const fn is(self, verified: bool) -> bool
        ensures { result ≡ is_marked verified self }
    {
        match self {
            Mark::Aside => false,
            Mark::Waiting => !verified,
            Mark::Verified => verified,
        }
    }
}

impl<S: Scheme<D>, D: Digest> Held<S, D> {
    /// Whether it counts for this kind, as one that is known to attest or as one that waits.
    fn stands(&self, kind: Kind, verified: bool) -> bool
        ensures { result ≡ stands verified kind self.now }
    {
        self.mark.is(verified) && is_same_kind(kind, kind_of(&self.vote))
    }

    /// It counts on only if it is for this proposal.
    fn retain_for(&mut self, proposal: &Proposal<D>)
        ensures { self.new ≡ kept (is_candidate D.PartialEq.eq (Some proposal.now)) self.old }
    {
        if !is_for(&self.vote, proposal) {
            self.mark = Mark::Aside;
        }
    }

    /// It counts no more if it is of this kind.
    fn finish(&mut self, kind: Kind)
        ensures { self.new ≡ kept (λ v. not (is_kind kind (vote_kind v))) self.old }
    {
        if is_same_kind(kind, kind_of(&self.vote)) {
            self.mark = Mark::Aside;
        }
    }

    /// It was judged, if it is of this kind and waited, and fails where its signer is one of these, which ascend.
    fn settle(&mut self, kind: Kind, failing: &[Participant])
        ensures { IsStrictlyIncreasing failing.now → self.new ≡ settled kind failing.now self.old }
    {
        if self.stands(kind, false) {
            self.mark = if is_listed(failing, self.vote.signer()) {
                Mark::Aside
            } else {
                Mark::Verified
            };
        }
    }
}

/// Whether the two kinds are one.
const fn is_same_kind(first: Kind, second: Kind) -> bool
    ensures { result ≡ is_kind first second }
{
    match (first, second) {
        (Kind::Notarization, Kind::Notarization) => true,
        (Kind::Nullification, Kind::Nullification) => true,
        (Kind::Finalization, Kind::Finalization) => true,
        _ => false,
    }
}

impl<S: Scheme<D>, D: Digest> Row<S, D> {
    /// No votes.
    const fn new() -> Self
        ensures notarize { result.notarize ≡ None }
        ensures other { result.other ≡ None }
    {
        Row {
            notarize: None,
            other: None,
        }
    }

    /// Puts a vote down in the place of one that came before.
    fn put(&mut self, held: Held<S, D>)
        ensures { self.new ≡ with_cell (is_kind Notarization (vote_kind held.vote)) held self.old }
    {
        if is_same_kind(Kind::Notarization, kind_of(&held.vote)) {
            self.notarize = Some(held);
        } else {
            self.other = Some(held);
        }
    }

    /// Its vote of this kind, if it is known to attest, or if it waits.
    fn vote(&self, kind: Kind, verified: bool) -> Option<&Vote<S, D>>
        ensures { option_copied result ≡ vote_in verified kind self.now }
    {
        let cell = if is_same_kind(Kind::Notarization, kind) {
            self.notarize.as_ref()
        } else {
            self.other.as_ref()
        };
        counted(cell, kind, verified)
    }

    /// Whether a vote of it counts, and stands in the way of this one.
    fn blocks(&self, vote: &Vote<S, D>) -> bool
        ensures { result ≡ blocks vote.now self.now }
    {
        let cell = if is_same_kind(Kind::Notarization, kind_of(vote)) {
            self.notarize.as_ref()
        } else {
            self.other.as_ref()
        };
        match cell {
            Some(held) => !held.mark.is_aside() && is_in_way(vote, &held.vote),
            None => false,
        }
    }

    /// Its votes count on only if they are for this proposal.
    fn retain_for(&mut self, proposal: &Proposal<D>)
        ensures { self.new ≡ each_cell (kept (is_candidate D.PartialEq.eq (Some proposal.now))) self.old }
    {
        if let Some(held) = &mut self.notarize {
            held.retain_for(proposal);
        }
        if let Some(held) = &mut self.other {
            held.retain_for(proposal);
        }
    }

    /// Its vote of this kind counts no more.
    fn finish(&mut self, kind: Kind)
        ensures { self.new ≡ each_cell (kept (λ v. not (is_kind kind (vote_kind v)))) self.old }
    {
        if let Some(held) = &mut self.notarize {
            held.finish(kind);
        }
        if let Some(held) = &mut self.other {
            held.finish(kind);
        }
    }

    /// Its vote of this kind was judged if it waited, and fails where the signer is one of these, which ascend.
    fn settle(&mut self, kind: Kind, failing: &[Participant])
        ensures { IsStrictlyIncreasing failing.now → self.new ≡ each_cell (settled kind failing.now) self.old }
    {
        if let Some(held) = &mut self.notarize {
            held.settle(kind, failing);
        }
        if let Some(held) = &mut self.other {
            held.settle(kind, failing);
        }
    }
}

/// The vote, if there is one that counts so for this kind.
fn counted<S: Scheme<D>, D: Digest>(
    cell: Option<&Held<S, D>>,
    kind: Kind,
    verified: bool,
) -> Option<&Vote<S, D>>
    ensures { option_copied result ≡ counted_in verified kind (option_copied cell.entry) }
{
    match cell {
        Some(held) => {
            if held.stands(kind, verified) {
                Some(&held.vote)
            } else {
                None
            }
        }
        None => None,
    }
}

impl<S: Scheme<D>, D: Digest> Rows<S, D> {
    /// No votes of a committee of so many, and no certificates. The rows are made with the first vote.
    pub fn new(alloc: Global, members: u32) -> Self
        ensures places { AreNewest result members [] }
        ensures kinds { (kind : Kind) → KindIs kind result false [] [] }
    {
        let none = Tally {
            waiting: 0,
            verified: 0,
            complete: false,
        };
        Rows {
            members,
            rows: Vec::new(alloc),
            notarizes: none,
            nullifies: none,
            finalizes: none,
        }
    }

    /// How many votes of a kind count.
    pub const fn tally(&self, kind: Kind) -> Tally
        ensures { result ≡ tally_at kind self.now }
    {
        match kind {
            Kind::Notarization => self.notarizes,
            Kind::Nullification => self.nullifies,
            Kind::Finalization => self.finalizes,
        }
    }

    /// Sets how many votes of a kind count.
    fn set_tally(&mut self, kind: Kind, tally: Tally)
        ensures rows { self.new.rows ≡ self.old.rows }
        ensures members { self.new.members ≡ self.old.members }
        ensures tallies { (k : Kind) → tally_at k self.new ≡ (if is_kind kind k then tally else tally_at k self.old) }
    {
        match kind {
            Kind::Notarization => self.notarizes = tally,
            Kind::Nullification => self.nullifies = tally,
            Kind::Finalization => self.finalizes = tally,
        }
    }

    /// This member's newest notarize, or its newest nullify or finalize.
    pub fn vote_of(&self, signer: Participant, notarize: bool) -> Option<&Vote<S, D>>
        ensures member { signer < members_of self.now → option_copied result ≡ newest_of notarize self.now signer }
        ensures stranger { members_of self.now ≤ signer → result ≡ None }
    {
        if self.members <= signer.get() {
            return None;
        }
        let row = self.rows.get(signer.get() as usize)?;
        let cell = if notarize {
            row.notarize.as_ref()
        } else {
            row.other.as_ref()
        };
        match cell {
            Some(held) => Some(&held.vote),
            None => None,
        }
    }

    /// Whether a vote that counts stands in the way of this one: of its signer, and of its kind or, of nullify and
    /// finalize, of either.
    pub fn has_in_way(&self, vote: &Vote<S, D>) -> bool
        ensures { (members : ℕ) (votes : List (Vote S D S.PublicKey S.Signature S.Certificate))
            → AreNewest self.now members votes
            → (result ≡ false) ↔ NoneInWay self.now vote.now }
    {
        let signer = vote.signer().get();
        if self.members <= signer {
            return self.has_stranger_in_way(vote);
        }
        self.has_blocking(signer as usize, vote)
    }

    /// Whether the row of this place, if there is one, blocks the vote.
    fn has_blocking(&self, place: usize, vote: &Vote<S, D>) -> bool
        ensures { result ≡ blocks_at vote.now (slice_get self.now.rows.items place) }
    {
        match self.rows.get(place) {
            Some(row) => row.blocks(vote),
            None => false,
        }
    }

    /// Whether a row that isn't a member's blocks the vote.
    fn has_stranger_in_way(&self, vote: &Vote<S, D>) -> bool
        ensures { (result ≡ false) ↔ StrangersFree vote.now self.now }
    {
        for place in self.members as usize..self.rows.len() {
            if self.has_blocking(place, vote) {
                return true;
            }
        }
        false
    }

    /// Makes one row more.
    fn extend(&mut self) -> Result<(), AllocError>
        ensures len { OnOk result (length self.new.rows.items ≡ length self.old.rows.items + 1) }
        ensures stays { RowsStay self.old self.new }
    {
        self.rows.push(Row::new())?;
        Ok(())
    }

    /// Makes a row for each member that has none.
    fn reach(&mut self) -> Result<(), AllocError>
        ensures len { OnOk result (self.old.members ≤ length self.new.rows.items) }
        ensures stays { RowsStay self.old self.new }
    {
        let reached = self.rows.len();
        let missing = (self.members as usize).saturating_sub(reached);
        if missing == 0 {
            return Ok(());
        }
        self.rows.reserve(missing)?;
        for _ in 0..missing {
            self.extend()?;
        }
        Ok(())
    }

    /// Puts a vote down, which counts or doesn't. No vote of its signer may count that stands in its way.
    pub fn put(&mut self, vote: Vote<S, D>, own: bool, counts: bool) -> Result<(), AllocError>
        ensures places { OnOk result ((members : ℕ) (votes : List (Vote S D S.PublicKey S.Signature S.Certificate))
            → AreNewest self.old members votes
            → AreNewest self.new members (vote ∷ votes)) }
        ensures kinds { OnOk result ((members : ℕ) (votes : List (Vote S D S.PublicKey S.Signature S.Certificate))
            → AreNewest self.old members votes
            → (kind : Kind) (complete : Bool) (wait sure : List (Vote S D S.PublicKey S.Signature S.Certificate))
            → KindIs kind self.old complete wait sure
            → find (is_in_way vote) wait ≡ None
            → find (is_in_way vote) sure ≡ None
            → KindIs kind self.new complete (pushed kind vote (counts && not own) wait) (pushed kind vote (counts && own) sure)) }
        ensures err { OnErr result (RowsStay self.old self.new) }
    {
        self.reach()?;
        let kind = kind_of(&vote);
        self.write(Held {
            vote,
            mark: Mark::new(counts, own),
        })?;
        if counts {
            self.count(kind, own);
        }
        Ok(())
    }

    /// Writes a vote into its member's row; that of a stranger into a row of its own, if it counts.
    fn write(&mut self, held: Held<S, D>) -> Result<(), AllocError>
        ensures others { OthersStay self.old self.new }
        ensures member { OnOk result (vote_signer held.vote < self.old.members
            → self.old.members ≤ length self.old.rows.items
            → (d : Row S D S.PublicKey S.Signature S.Certificate)
            → self.new.rows.items ≡ slice_set self.old.rows.items (vote_signer held.vote)
            (with_cell (is_kind Notarization (vote_kind held.vote)) held (slice_index_or self.old.rows.items (vote_signer held.vote) d))) }
        ensures stranger { OnOk result (self.old.members ≤ vote_signer held.vote
            → self.new.rows.items ≡ (if is_aside held.mark then self.old.rows.items else self.old.rows.items ++ with_cell
            (is_kind Notarization (vote_kind held.vote)) held (record { notarize = None; other = None }) ∷ [])) }
        ensures err { OnErr result (self.new.rows.items ≡ self.old.rows.items) }
    {
        let signer = held.vote.signer().get();
        if signer < self.members {
            let place = signer as usize;
            if place < self.rows.len() {
                self.rows[place].put(held);
            }
            return Ok(());
        }
        if held.mark.is_aside() {
            return Ok(());
        }
        let mut row = Row::new();
        row.put(held);
        self.rows.push(row)?;
        Ok(())
    }

    /// Counts one vote more.
    fn count(&mut self, kind: Kind, verified: bool)
        ensures rows { self.new.rows ≡ self.old.rows }
        ensures members { self.new.members ≡ self.old.members }
        ensures tallies { (k : Kind) → IsCounted verified (is_kind k kind) (length self.old.rows.items) (tally_at k self.old) (tally_at k self.new) }
    {
        let Tally {
            waiting,
            verified: known,
            complete,
        } = self.tally(kind);
        let tally = if verified {
            Tally {
                waiting,
                verified: known.saturating_add(1),
                complete,
            }
        } else {
            Tally {
                waiting: waiting.saturating_add(1),
                verified: known,
                complete,
            }
        };
        self.set_tally(kind, tally);
    }

    /// Counts the votes of a kind anew.
    fn recount(&mut self, kind: Kind)
        ensures rows { self.new.rows ≡ self.old.rows }
        ensures members { self.new.members ≡ self.old.members }
        ensures tallies { (k : Kind)
            → tally_at k self.new ≡ (if is_kind kind k then record
            { waiting = length (votes_in false kind self.old.rows.items); verified = length (votes_in true kind self.old.rows.items); complete = (tally_at kind self.old).complete }
            else tally_at k self.old) }
    {
        let complete = self.tally(kind).complete;
        let tally = Tally {
            waiting: self.number(kind, false),
            verified: self.number(kind, true),
            complete,
        };
        self.set_tally(kind, tally);
    }

    /// How many votes of a kind are known to attest, or wait.
    fn number(&self, kind: Kind, verified: bool) -> usize
        ensures { result ≡ length (votes_in verified kind self.now.rows.items) }
    {
        let mut number: usize = 0;
        for row in &self.rows {
            if row.vote(kind, verified).is_some() {
                number = number.saturating_add(1);
            }
        }
        number
    }

    /// The votes for other proposals count no more.
    pub fn retain_for(&mut self, proposal: &Proposal<D>)
        ensures places { PlacesStay self.old self.new }
        ensures kinds { (kind : Kind) (complete : Bool) (wait sure : List (Vote S D S.PublicKey S.Signature S.Certificate))
            → KindIs kind self.old complete wait sure
            → KindIs kind self.new complete (filter (is_candidate D.PartialEq.eq (Some proposal.now)) wait)
            (filter (is_candidate D.PartialEq.eq (Some proposal.now)) sure) }
    {
        for row in self.rows.iter_mut() {
            row.retain_for(proposal);
        }
        self.recount(Kind::Notarization);
        self.recount(Kind::Nullification);
        self.recount(Kind::Finalization);
    }

    /// The votes of a kind count no more, since its certificate was made.
    pub fn finish(&mut self, kind: Kind)
        ensures places { PlacesStay self.old self.new }
        ensures kinds { (k : Kind) (complete : Bool) (wait sure : List (Vote S D S.PublicKey S.Signature S.Certificate))
            → KindIs k self.old complete wait sure
            → KindIs k self.new (is_kind k kind || complete) (if is_kind k kind then [] else wait) (if is_kind k kind then [] else sure) }
    {
        for row in self.rows.iter_mut() {
            row.finish(kind);
        }
        self.set_tally(
            kind,
            Tally {
                waiting: 0,
                verified: 0,
                complete: true,
            },
        );
    }

    /// The waiting votes of a kind, of all but these signers, which ascend, are known to attest now.
    pub fn settle(&mut self, kind: Kind, failing: &[Participant])
        ensures places { IsStrictlyIncreasing failing.now → PlacesStay self.old self.new }
        ensures kinds { IsStrictlyIncreasing failing.now
            → (k : Kind) (complete : Bool) (wait sure : List (Vote S D S.PublicKey S.Signature S.Certificate))
            → KindIs k self.old complete wait sure
            → KindIs k self.new complete (settled_waiting k kind wait) (settled_verified k kind failing.now wait sure) }
    {
        for row in self.rows.iter_mut() {
            row.settle(kind, failing);
        }
        self.recount(kind);
    }

    /// The attestations of the votes of a kind that are known to attest, or of those that wait, by signer.
    pub fn attestations(
        &self,
        alloc: Global,
        kind: Kind,
        verified: bool,
    ) -> Result<Vec<Attestation<S::Signature>>, AllocError>
        ensures { IfOk result (λ v. v.items ≡ map vote_attestation (votes_of verified kind self.now)) }
    {
        let tally = self.tally(kind);
        let many = if verified {
            tally.verified
        } else {
            tally.waiting
        };
        let mut attestations = Vec::with_capacity(alloc, many)?;
        for row in &self.rows {
            if let Some(vote) = row.vote(kind, verified) {
                attestations.push(attestation_of(vote))?;
            }
        }
        Ok(attestations)
    }

    /// The first vote of a kind that is known to attest.
    pub fn first_verified(&self, kind: Kind) -> Option<&Vote<S, D>>
        ensures { option_copied result ≡ head_of (votes_of true kind self.now) }
    {
        for row in &self.rows {
            if let Some(vote) = row.vote(kind, true) {
                return Some(vote);
            }
        }
        None
    }

    /// Whether all votes of a kind that are known to attest are for what the first is for.
    pub fn is_of_one(&self, kind: Kind) -> bool
        ensures { MatchOption (head_of (votes_of true kind self.now)) (result ≡ true)
            (λ first. IsTrue result ↔ All (λ v. is_candidate D.PartialEq.eq (vote_proposal first) v ≡ true) (votes_of true kind self.now)) }
    {
        match self.first_verified(kind) {
            Some(first) => self.are_beside(kind, first),
            None => true,
        }
    }

    /// Whether all votes of a kind that are known to attest are for what this one is for.
    fn are_beside(&self, kind: Kind, first: &Vote<S, D>) -> bool
        ensures { IsTrue result ↔ All (λ v. is_candidate D.PartialEq.eq (vote_proposal first.now) v ≡ true) (votes_of true kind self.now) }
    {
        for row in &self.rows {
            if let Some(vote) = row.vote(kind, true) {
                if !is_beside(vote, first) {
                    return false;
                }
            }
        }
        true
    }
}

/// Whether the vote is for what the first is for.
fn is_beside<S: Scheme<D>, D: Digest>(vote: &Vote<S, D>, first: &Vote<S, D>) -> bool
    ensures { result ≡ is_candidate D.PartialEq.eq (vote_proposal first.now) vote.now }
{
    match first {
        Vote::Notarize(first) => is_for(vote, &first.proposal),
        Vote::Nullify(_) => true,
        Vote::Finalize(first) => is_for(vote, &first.proposal),
    }
}
