//! Members who sign.

ghost use Rattle.std.specs.Prelude.{◌≡◌, ◌<◌, ℕ, Option, Some, IfSome};
ghost use Rattle.types_core.specs.Subject.{statement};

use crate::attesting::Attesting;
use types_core::{Digest, Participant, PublicKey, Subject};

/// One member's view of a committee in which each attestation is judged by itself. `Listed` makes a scheme of it.
pub trait Signing<D: Digest>: Attesting<D> {
    /// A member's public key.
    type Key: PublicKey;

    /// The index whose key this is, if it has one.
    ghost own: { Self → Option ℕ };

    /// The public key of a member.
    ghost key_of: { Self → ℕ → Self.Key };

    /// The index whose key this is, if it has one.
    fn own(&self) -> Option<Participant>
        ensures value { result ≡ own self.now }
        ensures member { IfSome result (λ i. i < Self.members self.now) };

    /// The public key of a member.
    fn key_of(&self, member: Participant) -> Self::Key
        requires member { member < Self.members self.now }
        ensures { result ≡ key_of self.now member };

    /// A signature of the member whose key this is. Signing one subject twice may give two signatures.
    fn mark(&self, signer: Participant, subject: &Subject<'_, D>) -> Self::Mark
        requires own { own self.now ≡ Some signer }
        requires member { signer < Self.members self.now }
        ensures { Self.marks self.now signer (statement subject.now) result };
}
