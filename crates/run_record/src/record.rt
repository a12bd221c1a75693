//! The record of a member, whatever its scheme: at one of them the calls would cost the prover several times as much.

use messages_certificates::{Artifact, Finalization};
use simplex_record::{Owner, Standing, check, first_refused, rewritten};
use std::alloc::{AllocError, Global};
use test_messages::CertificateWords;
use test_words::{Committee, Say, Trouble, Words};
use types_core::{Duplicate, Sha256Digest, TermLength, View, Viewable};
use types_terms::Kind;

/// An artifact of a member.
type Item<S> = Artifact<S, Sha256Digest>;

/// A list of artifacts, those that were added, and what is kept of these.
#[derive(Drop)]
pub(crate) struct Record<S: Committee> {
    members: u32,
    scheme: S,
    owner: Owner,
    artifacts: Vec<Item<S>>,
    added: Vec<Item<S>>,
    standing: Standing<Sha256Digest>,
}

/// Equal artifacts.
fn copies<S: Committee>(alloc: Global, artifacts: &[Item<S>]) -> Result<Vec<Item<S>>, AllocError> {
    let mut equal = Vec::new(alloc);
    for item in artifacts {
        equal.push(item.duplicate(alloc)?)?;
    }
    Ok(equal)
}

/// What is kept of these, each added behind the ones before it.
fn standing_of<S: Committee>(
    alloc: Global,
    length: TermLength,
    artifacts: &[Item<S>],
) -> Result<Standing<Sha256Digest>, AllocError> {
    let mut standing = Standing::new(alloc);
    for item in artifacts {
        standing.add(length, item)?;
    }
    Ok(standing)
}

/// The finalization of the last finalized view, if there is one.
fn last_final<S: Committee>(artifacts: &[Item<S>]) -> Option<&Finalization<S, Sha256Digest>> {
    let mut last = None;
    let mut view = View::zero();
    for item in artifacts {
        if let Artifact::Finalization(certificate) = item
            && certificate.view() > view
        {
            view = certificate.view();
            last = Some(certificate);
        }
    }
    last
}

impl<S: Committee> Record<S> {
    /// `N LENGTH MEMBER EPOCH`: an empty record of this member of so many, in terms of so many views.
    pub(crate) fn new(words: &mut Words<'_>, alloc: Global) -> Result<Self, Trouble> {
        let members = words.index()?;
        let term_length = words.term_length()?;
        let signer = words.member()?;
        let epoch = words.epoch()?;
        words.end()?;
        Ok(Record {
            members,
            scheme: S::member_of(alloc, members, Some(signer), 0)?,
            owner: Owner {
                epoch,
                term_length,
                signer,
            },
            artifacts: Vec::new(alloc),
            added: Vec::new(alloc),
            standing: Standing::new(alloc),
        })
    }

    /// The artifact that the words that are left stand for.
    fn artifact(&self, words: &mut Words<'_>, alloc: Global) -> Result<Item<S>, Trouble> {
        let item = words.artifact(alloc, self.members)?;
        words.end()?;
        Ok(item)
    }

    /// `push ARTIFACT`: puts an artifact behind the list.
    fn push(&mut self, words: &mut Words<'_>, say: &mut Say) -> Result<(), Trouble> {
        let item = self.artifact(words, say.alloc)?;
        self.artifacts.push(item)?;
        say.ok()
    }

    /// `push_spelled BYTES`: the same of the artifact that the bytes spell.
    fn push_spelled(&mut self, words: &mut Words<'_>, say: &mut Say) -> Result<(), Trouble> {
        let item: Item<S> = words.value(say.alloc, self.members)?;
        words.end()?;
        self.artifacts.push(item)?;
        say.ok()
    }

    /// `first_refused`: the position of the first of the list that a lawful record refuses, or `-`.
    fn first_refused(&self, words: &Words<'_>, say: &mut Say) -> Result<(), Trouble> {
        words.end()?;
        match first_refused(say.alloc, &self.scheme, self.owner, &self.artifacts)? {
            Some(position) => say.number(position as u64),
            None => say.none(),
        }
    }

    /// `allows ARTIFACT`: whether the rules allow it behind those that were added, whoever signed it.
    fn allows(&self, words: &mut Words<'_>, say: &mut Say) -> Result<(), Trouble> {
        let item = self.artifact(words, say.alloc)?;
        say.truth(self.standing.allows(self.owner.term_length, &item))
    }

    /// `add ARTIFACT`: adds it to those, where the rules allow it, or where its view has no room.
    fn add(&mut self, words: &mut Words<'_>, say: &mut Say) -> Result<(), Trouble> {
        let item = self.artifact(words, say.alloc)?;
        let length = self.owner.term_length;
        if !self.standing.allows(length, &item) && item.view().has_room(length) {
            return Err(Trouble::Condition);
        }
        let taken = self.standing.add(length, &item)?;
        if taken {
            self.added.push(item)?;
        }
        say.truth(taken)
    }

    /// `check`: the same as `first_refused`; where the list is lawful, it is what was added.
    fn check(&mut self, words: &Words<'_>, say: &mut Say) -> Result<(), Trouble> {
        words.end()?;
        match check(say.alloc, &self.scheme, self.owner, &self.artifacts)? {
            Ok(standing) => {
                self.standing = standing;
                self.added = copies(say.alloc, &self.artifacts)?;
                say.none()
            }
            Err(position) => say.number(position as u64),
        }
    }

    /// `verdict VIEW`: the verdict on the view of those that were added, or `-`.
    fn verdict(&self, words: &mut Words<'_>, say: &mut Say) -> Result<(), Trouble> {
        let view = words.view()?;
        words.end()?;
        match self.standing.verdict(view) {
            Some(verdict) => say.truth(verdict),
            None => say.none(),
        }
    }

    /// `has_certificate KIND VIEW`: whether one of the kind and view was added.
    fn has_certificate(&self, words: &mut Words<'_>, say: &mut Say) -> Result<(), Trouble> {
        let kind = match words.word() {
            "notarization" => Kind::Notarization,
            "nullification" => Kind::Nullification,
            "finalization" => Kind::Finalization,
            _ => return Err(Trouble::Unreadable),
        };
        let view = words.view()?;
        words.end()?;
        say.truth(self.standing.has_certificate(kind, view))
    }

    /// `last_nullify`: how many were added before the last own nullify, or `-`.
    fn last_nullify(&self, words: &Words<'_>, say: &mut Say) -> Result<(), Trouble> {
        words.end()?;
        match self.standing.last_nullify() {
            Some(place) => say.number(place as u64),
            None => say.none(),
        }
    }

    /// What a rewrite leaves of those that were added, where it drops any.
    fn left(&self, alloc: Global) -> Result<Option<Vec<Item<S>>>, Trouble> {
        let Some(last) = last_final(&self.added) else {
            return Ok(None);
        };
        if last.view() == self.standing.floor() {
            return Ok(None);
        }
        let left = rewritten(alloc, self.owner.term_length, last, &self.added)?;
        Ok(Some(left))
    }

    /// `rewrite`: the list becomes what a rewrite leaves of those that were added, and that is then what was added; says the view
    /// that it begins behind and how many are left, or `-` where none is dropped.
    fn rewrite(&mut self, words: &Words<'_>, say: &mut Say) -> Result<(), Trouble> {
        words.end()?;
        let Some(left) = self.left(say.alloc)? else {
            self.artifacts = copies(say.alloc, &self.added)?;
            return say.none();
        };
        self.standing = standing_of(say.alloc, self.owner.term_length, &left)?;
        self.artifacts = copies(say.alloc, &left)?;
        self.added = left;
        say.view(self.standing.floor())?;
        say.gap()?;
        say.number(self.added.len() as u64)
    }

    /// `artifacts`: the list, each spelled, with commas between, or `-`.
    fn spelled(&self, words: &Words<'_>, say: &mut Say) -> Result<(), Trouble> {
        words.end()?;
        if self.artifacts.is_empty() {
            return say.none();
        }
        let mut is_first = true;
        for item in &self.artifacts {
            if !is_first {
                say.text(",")?;
            }
            say.value(item)?;
            is_first = false;
        }
        Ok(())
    }

    /// `floor`: the view that those that were added begin behind.
    fn floor(&self, words: &Words<'_>, say: &mut Say) -> Result<(), Trouble> {
        words.end()?;
        say.view(self.standing.floor())
    }

    /// The calls of a record.
    pub(crate) fn answer(
        &mut self,
        name: &str,
        words: &mut Words<'_>,
        say: &mut Say,
    ) -> Result<(), Trouble> {
        match name {
            "push" => self.push(words, say),
            "push_spelled" => self.push_spelled(words, say),
            "first_refused" => self.first_refused(words, say),
            "allows" => self.allows(words, say),
            "add" => self.add(words, say),
            "check" => self.check(words, say),
            _ => self.rewrites(name, words, say),
        }
    }

    /// Those of a rewrite.
    fn rewrites(
        &mut self,
        name: &str,
        words: &mut Words<'_>,
        say: &mut Say,
    ) -> Result<(), Trouble> {
        match name {
            "rewrite" => self.rewrite(words, say),
            "artifacts" => self.spelled(words, say),
            _ => self.asked(name, words, say),
        }
    }

    /// Those that ask what was added.
    fn asked(&self, name: &str, words: &mut Words<'_>, say: &mut Say) -> Result<(), Trouble> {
        match name {
            "verdict" => self.verdict(words, say),
            "has_certificate" => self.has_certificate(words, say),
            "last_nullify" => self.last_nullify(words, say),
            "floor" => self.floor(words, say),
            _ => Err(Trouble::Unreadable),
        }
    }
}
