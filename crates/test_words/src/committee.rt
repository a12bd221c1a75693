//! The committees of scripts, and how their members attest.

ghost use Rattle.std.specs.Prelude.{◌≤◌, ◌<◌, IsTrue};
ghost use Rattle.std.specs.Option.{ForSome};

use crate::trouble::Trouble;
use simplex_types::{Plain, PlainScheme, SaltedScheme};
use std::alloc::Global;
use test_schemes::OneByOne;
use types_core::{
    AssemblyError, Attestation, Listing, Participant, Sha256Digest, Signature, Subject,
    are_of_distinct_members,
};

/// The base of the namespaces that all committees sign in.
const BASE: &[u8; 7] = b"simplex";

/// A signing scheme of scripts.
pub trait Committee: Listing<Sha256Digest> + Drop {
    /// A committee of so many, seen by this member or by nobody of it, whose next signature has this salt.
    ///
    /// # Errors
    ///
    /// [`Trouble::Condition`] where it isn't of 1 to 65,535 members with this one among them, and
    /// [`Trouble::Unreadable`] where there is a salt and signatures have none.
    fn member_of(
        alloc: Global,
        n: u32,
        me: Option<Participant>,
        salt: u64,
    ) -> Result<Self, Trouble>;
}

impl Committee for PlainScheme {
    fn member_of(
        alloc: Global,
        n: u32,
        me: Option<Participant>,
        salt: u64,
    ) -> Result<Self, Trouble> {
        if !is_seat(n, me) {
            return Err(Trouble::Condition);
        }
        if salt != 0 {
            return Err(Trouble::Unreadable);
        }
        Ok(PlainScheme::new(alloc, BASE, n, me)?)
    }
}

impl Committee for SaltedScheme {
    fn member_of(
        alloc: Global,
        n: u32,
        me: Option<Participant>,
        salt: u64,
    ) -> Result<Self, Trouble> {
        if !is_seat(n, me) {
            return Err(Trouble::Condition);
        }
        Ok(SaltedScheme::new(alloc, BASE, n, me, salt)?)
    }
}

impl Committee for OneByOne {
    fn member_of(
        alloc: Global,
        n: u32,
        me: Option<Participant>,
        salt: u64,
    ) -> Result<Self, Trouble> {
        let plain = PlainScheme::member_of(alloc, n, me, salt)?;
        Ok(OneByOne { plain })
    }
}

/// How a member of a script signs.
#[derive(Clone, Copy, Debug, PartialEq, Eq)]
pub struct Signing {
    /// The salt of the signature, 0 where signatures have none.
    pub salt: u64,
    /// Whether the lowest bit of the signature's first byte is turned.
    pub is_broken: bool,
}

impl Signing {
    /// With salt 0, and well.
    pub const GOOD: Signing = Signing {
        salt: 0,
        is_broken: false,
    };
}

/// Whether a committee of so many can be, with this one among them.
fn is_seat(n: u32, me: Option<Participant>) -> bool
    ensures { IsTrue result → (0 < n) × (n ≤ Plain.MAX_PARTICIPANTS) × ForSome me (λ i. i < n) }
{
    if n == 0 || n > PlainScheme::MAX_PARTICIPANTS {
        return false;
    }
    match me {
        Some(me) => me.get() < n,
        None => true,
    }
}

/// The attestation of a member of a committee of so many by itself. Under the index of nobody it is of member 0.
pub fn attest<S: Committee>(
    alloc: Global,
    n: u32,
    signer: Participant,
    signing: Signing,
    subject: &Subject<'_, Sha256Digest>,
) -> Result<Attestation<S::Signature>, Trouble> {
    let me = if signer.get() < n {
        signer
    } else {
        Participant::new(0)
    };
    let member = S::member_of(alloc, n, Some(me), signing.salt)?;
    let Some(made) = member.sign(subject) else {
        return Err(Trouble::Condition);
    };
    let signature = if signing.is_broken {
        turned(alloc, &made.signature)?
    } else {
        made.signature
    };
    Ok(Attestation { signer, signature })
}

/// The certificate of the attestations, with salt 0, of these members of a committee of so many. Unreadable where it is
/// one twice, one is no member, or they are fewer than a quorum.
pub fn assemble<S: Committee>(
    alloc: Global,
    n: u32,
    signers: &[u32],
    subject: &Subject<'_, Sha256Digest>,
) -> Result<S::Certificate, Trouble> {
    let attestations = attestations_of::<S>(alloc, n, signers, subject)?;
    let scheme = S::member_of(alloc, n, None, 0)?;
    assemble_by(alloc, &scheme, &attestations)
}

/// Those attestations.
fn attestations_of<S: Committee>(
    alloc: Global,
    n: u32,
    signers: &[u32],
    subject: &Subject<'_, Sha256Digest>,
) -> Result<Vec<Attestation<S::Signature>>, Trouble> {
    let mut attestations = Vec::new(alloc);
    for signer in signers {
        let signer = Participant::new(*signer);
        attestations.push(attest::<S>(alloc, n, signer, Signing::GOOD, subject)?)?;
    }
    Ok(attestations)
}

/// The certificate that a committee makes of them.
fn assemble_by<S: Committee>(
    alloc: Global,
    scheme: &S,
    attestations: &[Attestation<S::Signature>],
) -> Result<S::Certificate, Trouble> {
    if !are_of_distinct_members(alloc, scheme.participants(), attestations)? {
        return Err(Trouble::Unreadable);
    }
    match scheme.assemble(alloc, attestations) {
        Ok(certificate) => Ok(certificate),
        Err(AssemblyError::Memory) => Err(Trouble::Memory),
        Err(AssemblyError::InsufficientAttestations(..)) => Err(Trouble::Unreadable),
    }
}

/// The signature with the lowest bit of its first byte turned.
fn turned<G: Signature>(alloc: Global, signature: &G) -> Result<G, Trouble> {
    let mut bytes = Vec::new(alloc);
    signature.write(&mut bytes)?;
    if let Some(first) = bytes.first_mut() {
        *first ^= 1;
    }
    let mut rest = bytes.as_slice();
    match G::take(&mut rest, u32::MAX) {
        Some(turned) => Ok(turned),
        None => Err(Trouble::Unreadable),
    }
}
