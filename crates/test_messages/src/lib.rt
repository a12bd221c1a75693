//! The words of votes, certificates, artifacts and reports in scripts, over those of `test_words`: each method is a call on `Words` or
//! `Say`, by the traits [`CertificateWords`], [`SayCertificates`], [`MessageWords`] and [`SayMessages`].
//!
//! # Read
//!
//! `n` is the size of the committee, `S` its scheme (`Committee`).
//!
//! - `notarize::<S>(alloc, n)`, `finalize::<S>(alloc, n)`: `SIGNER ATT PROPOSAL`, `nullify::<S>(alloc, n)`: `SIGNER ATT
//!   EPOCH VIEW`, each behind the word of its kind. ATT is twice the salt, and one more where the signature is broken. The
//!   attestation is the member's own; under an index of nobody it is that of member 0.
//! - `notarization::<S>(alloc, n)`, `finalization::<S>(alloc, n)`: `SIGNERS PROPOSAL`, `nullification::<S>(alloc, n)`:
//!   `SIGNERS EPOCH VIEW`, each behind the word of its kind: the certificate of the votes, with salt 0, of the signers.
//!   Unreadable where one is no member or is named twice, or they are fewer than a quorum.
//! - `certificate::<S>(alloc, n)`: the word of its kind, and one of these
//! - `artifact::<S>(alloc, n)`: the word of its kind, and a vote or a certificate, or `certification EPOCH VIEW T`
//!
//! In hexadecimal digits each is read by `words.value::<Notarize<S, Sha256Digest>>(alloc, n)` and so on, of `test_words`.
//!
//! # Said
//!
//! `notarize`, `nullify`, `finalize`, `notarization`, `nullification`, `finalization`, `certificate`, each with its word in
//! front and SUM in place of ATT or behind SIGNERS; `notarization_or` and so on of an `Option<&_>`, `-` for `None`.
//!
//! # Votes of any kind and reports
//!
//! - `words.vote::<S>(alloc, n)`: `notarize SIGNER ATT PROPOSAL`, `finalize SIGNER ATT PROPOSAL`, `nullify SIGNER ATT EPOCH
//!   VIEW`
//! - `say.vote(&vote)`: the same with SUM in place of ATT
//! - `say.report(&report)` of an `Option<Activity>`: a vote, a certificate, `certification` and a certificate,
//!   `conflicting-notarize VOTE VOTE`, `conflicting-finalize VOTE VOTE`, `nullify-finalize VOTE VOTE`, or `-`
#![tactic(auto)]

mod reading;
mod reading_certificates;
mod saying;
mod saying_certificates;

pub use reading::MessageWords;
pub use reading_certificates::CertificateWords;
pub use saying::SayMessages;
pub use saying_certificates::SayCertificates;
