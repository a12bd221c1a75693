//! The certificates of the view.

ghost use Rattle.std.specs.Prelude.{◌≡◌, if◌then◌else◌, true, false, ◌∷◌, None, is_some, is_none, IfOk, OnErr, option_copied, option_map};
ghost use Rattle.voter_history.specs.Held.{held, Agrees, Differs};
ghost use Rattle.voter_history.specs.Past.{notarized, nullified, finalized, sent_notarization, sent_nullification, sent_finalization, offers, notarization, nullification, finalization, has_sent_notarization, has_sent_nullification, has_sent_finalization};
ghost use Rattle.simplex_round.specs.Round.{AtEach, Becomes};

use crate::round::Round;
use messages_certificates::{Finalization, Notarization, Nullification};
use std::alloc::{AllocError, Global};
use types_core::{Digest, Duplicate, Scheme};

/// A copy of the certificate, where there is one that was not handed out.
fn unsent<C: Duplicate>(
    certificate: &Option<C>,
    is_sent: bool,
    alloc: Global,
) -> Result<Option<C>, AllocError>
    ensures { IfOk result (λ copy. copy ≡ (if is_sent then None else certificate.now)) }
{
    if is_sent {
        return Ok(None);
    }
    match certificate {
        None => Ok(None),
        Some(certificate) => Ok(Some(certificate.duplicate(alloc)?)),
    }
}

impl<S: Scheme<D>, D: Digest> Round<S, D> {
    /// The notarization.
    pub fn notarization(&self) -> Option<&Notarization<S, D>>
        ensures { AtEach S.key_of self.now (λ s l h. option_copied result ≡ notarization h) }
    {
        self.notarization.as_ref()
    }

    /// The nullification.
    pub fn nullification(&self) -> Option<&Nullification<S, D>>
        ensures { AtEach S.key_of self.now (λ s l h. option_copied result ≡ nullification h) }
    {
        self.nullification.as_ref()
    }

    /// The finalization.
    pub fn finalization(&self) -> Option<&Finalization<S, D>>
        ensures { AtEach S.key_of self.now (λ s l h. option_copied result ≡ finalization h) }
    {
        self.finalization.as_ref()
    }

    /// Takes a notarization: whether it is the first, and the known leader's key where its proposal took the
    /// place of another. A later one changes nothing.
    pub fn add_notarization(
        &mut self,
        certificate: Notarization<S, D>,
    ) -> (bool, Option<S::PublicKey>)
        ensures keeps { Becomes S.key_of self.old self.new (λ h. if result.0 then notarized certificate ∷ h else h) }
        ensures first { AtEach S.key_of self.old (λ s l h. result.0 ≡ is_none (notarization h)) }
        ensures again { result.0 ≡ false → result.1 ≡ None }
        ensures replaced { AtEach S.key_of self.old
            (λ s l h. result.0 ≡ true → Differs (held (offers h)) certificate.proposal → result.1 ≡ option_map (S.key_of s.scheme) l) }
        ensures same { AtEach S.key_of self.old (λ s l h. Agrees (held (offers h)) certificate.proposal → result.1 ≡ None) }
    {
        if self.notarization.is_some() {
            return (false, None);
        }
        let key = self.add_recovered_proposal(&certificate.proposal);
        self.notarization = Some(certificate);
        (true, key)
    }

    /// Takes a nullification: whether it is the first. A later one changes nothing.
    pub fn add_nullification(&mut self, certificate: Nullification<S, D>) -> bool
        ensures keeps { Becomes S.key_of self.old self.new (λ h. if result then nullified certificate ∷ h else h) }
        ensures first { AtEach S.key_of self.old (λ s l h. result ≡ is_none (nullification h)) }
    {
        if self.nullification.is_some() {
            return false;
        }
        self.nullification = Some(certificate);
        true
    }

    /// Takes a finalization: whether it is the first, and the known leader's key where its proposal took the
    /// place of another. A later one changes nothing.
    pub fn add_finalization(
        &mut self,
        certificate: Finalization<S, D>,
    ) -> (bool, Option<S::PublicKey>)
        ensures keeps { Becomes S.key_of self.old self.new (λ h. if result.0 then finalized certificate ∷ h else h) }
        ensures first { AtEach S.key_of self.old (λ s l h. result.0 ≡ is_none (finalization h)) }
        ensures again { result.0 ≡ false → result.1 ≡ None }
        ensures replaced { AtEach S.key_of self.old
            (λ s l h. result.0 ≡ true → Differs (held (offers h)) certificate.proposal → result.1 ≡ option_map (S.key_of s.scheme) l) }
        ensures same { AtEach S.key_of self.old (λ s l h. Agrees (held (offers h)) certificate.proposal → result.1 ≡ None) }
    {
        if self.finalization.is_some() {
            return (false, None);
        }
        let key = self.add_recovered_proposal(&certificate.proposal);
        self.finalization = Some(certificate);
        (true, key)
    }

    /// A copy of the notarization to hand out, once.
    ///
    /// # Errors
    ///
    /// `AllocError` where memory ran out. Nothing changes then.
    pub fn broadcast_notarization(
        &mut self,
        alloc: Global,
    ) -> Result<Option<Notarization<S, D>>, AllocError>
        ensures answer { IfOk result (λ sent. AtEach S.key_of self.old (λ s l h. sent ≡ (if has_sent_notarization h then None else notarization h))) }
        ensures keeps { IfOk result (λ sent. Becomes S.key_of self.old self.new (λ h. if is_some sent then sent_notarization ∷ h else h)) }
        ensures err { OnErr result (Becomes S.key_of self.old self.new (λ h. h)) }
    {
        match unsent(&self.notarization, self.broadcast_notarization, alloc)? {
            None => Ok(None),
            Some(copy) => {
                self.broadcast_notarization = true;
                Ok(Some(copy))
            }
        }
    }

    /// A copy of the nullification to hand out, once.
    ///
    /// # Errors
    ///
    /// `AllocError` where memory ran out. Nothing changes then.
    pub fn broadcast_nullification(
        &mut self,
        alloc: Global,
    ) -> Result<Option<Nullification<S, D>>, AllocError>
        ensures answer { IfOk result
            (λ sent. AtEach S.key_of self.old (λ s l h. sent ≡ (if has_sent_nullification h then None else nullification h))) }
        ensures keeps { IfOk result (λ sent. Becomes S.key_of self.old self.new (λ h. if is_some sent then sent_nullification ∷ h else h)) }
        ensures err { OnErr result (Becomes S.key_of self.old self.new (λ h. h)) }
    {
        match unsent(&self.nullification, self.broadcast_nullification, alloc)? {
            None => Ok(None),
            Some(copy) => {
                self.broadcast_nullification = true;
                Ok(Some(copy))
            }
        }
    }

    /// A copy of the finalization to hand out, once.
    ///
    /// # Errors
    ///
    /// `AllocError` where memory ran out. Nothing changes then.
    pub fn broadcast_finalization(
        &mut self,
        alloc: Global,
    ) -> Result<Option<Finalization<S, D>>, AllocError>
        ensures answer { IfOk result (λ sent. AtEach S.key_of self.old (λ s l h. sent ≡ (if has_sent_finalization h then None else finalization h))) }
        ensures keeps { IfOk result (λ sent. Becomes S.key_of self.old self.new (λ h. if is_some sent then sent_finalization ∷ h else h)) }
        ensures err { OnErr result (Becomes S.key_of self.old self.new (λ h. h)) }
    {
        match unsent(&self.finalization, self.broadcast_finalization, alloc)? {
            None => Ok(None),
            Some(copy) => {
                self.broadcast_finalization = true;
                Ok(Some(copy))
            }
        }
    }
}
