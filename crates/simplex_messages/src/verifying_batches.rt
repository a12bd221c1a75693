//! Many certificates verified at once.

ghost use Rattle.std.specs.Prelude.{◌↔◌, IfOk, IsTrue};
ghost use Rattle.std.specs.List.{AllZip};
ghost use Rattle.messages_certificates.specs.Certificate.{certificate_statement, certified_by};

use messages_certificates::Certificate;
use std::alloc::{AllocError, Global};
use types_core::{Digest, Scheme};

/// Whether each certificate certifies what it is on: an answer for each, in their order. Refused
/// only where memory is.
pub fn verify_certificates<S: Scheme<D>, D: Digest>(
    alloc: Global,
    scheme: &S,
    certificates: &[Certificate<S, D>],
) -> Result<Vec<bool>, AllocError>
    ensures { IfOk result (λ answers.
        AllZip (λ c answer. IsTrue answer ↔ S.certifies scheme.now (certificate_statement c) (certified_by c)) certificates.now
        answers.items) }
{
    let mut answers = Vec::new(alloc);
    for certificate in certificates {
        answers.push(certificate.verify(scheme))?;
    }
    Ok(answers)
}
