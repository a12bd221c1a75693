//! What is signed.

ghost use Rattle.std.specs.Prelude.{◌≡◌, ◌++◌, ◌≤◌, ℕ, List, IfOk, length};
ghost use Rattle.types_core.specs.Subject.{Statement, statement, message, namespace, kind_name, OneSubjectEach};

use crate::attributes::{Epochable, Viewable};
use crate::digest::Digest;
use crate::position::{Epoch, Round, View};
use crate::proposal::Proposal;
use std::alloc::{AllocError, Global};
use std::marker::Model;
use types_codec::Write;

/// What a vote is on.
#[derive(Clone, Copy)]
pub enum Subject<'a, D: Digest> {
    /// A vote to certify this proposal for its round.
    Notarize(&'a Proposal<D>),
    /// A vote to give this round up.
    Nullify(Round),
    /// A vote to finalize this proposal.
    Finalize(&'a Proposal<D>),
}

impl<D: Digest> Subject<'_, D> {
    /// The name of the subject's kind, which ends the namespace that it is signed in.
    pub fn kind_name(&self) -> &'static [u8]
        ensures { result.now ≡ kind_name (statement self.now) }
    {
        match self {
            Subject::Notarize(_) => b"_NOTARIZE",
            Subject::Nullify(_) => b"_NULLIFY",
            Subject::Finalize(_) => b"_FINALIZE",
        }
    }

    /// The bytes that are signed in the subject's namespace: the spelling of the proposal, or of
    /// the round for a nullify. Refused only where memory is.
    pub fn message(&self, alloc: Global) -> Result<Vec<u8>, AllocError>
        ensures { IfOk result (λ bytes. bytes.items ≡ message D.spelling (statement self.now)) }
    {
        let mut bytes = Vec::new(alloc);
        match self {
            Subject::Notarize(proposal) => proposal.write(&mut bytes)?,
            Subject::Nullify(round) => round.write(&mut bytes)?,
            Subject::Finalize(proposal) => proposal.write(&mut bytes)?,
        }
        Ok(bytes)
    }
}

impl<D: Digest> Epochable for Subject<'_, D> {
    ghost use Rattle.types_core.specs.Subject.{statement_round};

    ghost epoch_of = { λ s. (statement_round (statement s)).epoch };

    fn epoch(&self) -> Epoch {
        match self {
            Subject::Notarize(proposal) => proposal.round.epoch,
            Subject::Nullify(round) => round.epoch,
            Subject::Finalize(proposal) => proposal.round.epoch,
        }
    }
}

impl<D: Digest> Viewable for Subject<'_, D> {
    ghost use Rattle.types_core.specs.Subject.{statement_round};

    ghost view_of = { λ s. (statement_round (statement s)).view };

    fn view(&self) -> View {
        match self {
            Subject::Notarize(proposal) => proposal.round.view,
            Subject::Nullify(round) => round.view,
            Subject::Finalize(proposal) => proposal.round.view,
        }
    }
}

/// The base of the namespaces that a committee signs in.
#[derive(Debug, Drop)]
pub struct Namespace {
    base: Vec<u8>,
}

impl Model for Namespace {
    ghost Value = { List ℕ };

    ghost view = { λ n. n.base.items };
}

impl Namespace {
    /// The namespaces over this base. Refused only where memory is.
    pub fn new(alloc: Global, base: &[u8]) -> Result<Self, AllocError>
        ensures { IfOk result (λ names. names ≡ base.now) }
    {
        let base = Vec::from_slice(alloc, base)?;
        Ok(Namespace { base })
    }

    /// The bytes before the name of a kind.
    pub fn base(&self) -> &[u8]
        ensures { result.now ≡ self.now }
    {
        &self.base
    }

    /// The namespace that the subject is signed in. Refused only where memory is.
    pub fn of<D: Digest>(
        &self,
        alloc: Global,
        subject: &Subject<'_, D>,
    ) -> Result<Vec<u8>, AllocError>
        ensures { IfOk result (λ bytes. bytes.items ≡ namespace self.now (statement subject.now)) }
    {
        let mut bytes = Vec::from_slice(alloc, &self.base)?;
        bytes.extend_from_slice(subject.kind_name())?;
        Ok(bytes)
    }
}

/// The laws of what is signed: namespaces of two kinds differ whatever their bases, and under one
/// base a namespace with a message belongs to one subject.
pub fn signed_bytes_name_one_subject<D: Digest>()
    ensures kinds { (b c : List ℕ) (x y : Statement D) → namespace b x ≡ namespace c y → kind_name x ≡ kind_name y }
    ensures subjects { OneSubjectEach D.fits D.spelling }
{}
