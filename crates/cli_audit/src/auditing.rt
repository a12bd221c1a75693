//! An audit under the programs' scheme.

ghost use Rattle.std.specs.Prelude.{◌≡◌, ◌<◌, codes, IfOk};
ghost use Rattle.cli_audit.specs.Running.{IsPlainAudit};

use simplex_rules::{Audit, audit};
use simplex_types::PlainScheme;
use std::alloc::{AllocError, Global};
use types_core::Sha256Digest;

/// The base of the namespaces that the programs' committees sign in.
const BASE: &[u8; 7] = b"simplex";

/// The plain scheme of a committee of so many, as who is none of its members has it.
pub fn scheme_of(alloc: Global, count: u16) -> Result<PlainScheme, AllocError>
    requires { 0 < count }
    ensures base { IfOk result (λ scheme. scheme.base ≡ codes "simplex") }
    ensures count { IfOk result (λ scheme. scheme.participants ≡ count) }
{
    PlainScheme::new(alloc, BASE, u32::from(count), None)
}

/// The audit of the reports that these bytes hold, under that scheme. Refused only where memory is.
pub fn plain_audit(
    alloc: Global,
    count: u16,
    bytes: &[u8],
) -> Result<Audit<PlainScheme, Sha256Digest>, AllocError>
    requires { 0 < count }
    ensures { IfOk result (λ found. IsPlainAudit count bytes.now found.evidence.items found.fault) }
{
    let scheme = scheme_of(alloc, count)?;
    audit(alloc, &scheme, bytes)
}
