//! The reports of all correct members, one behind the other.

use simplex_messages::Activity;
use std::alloc::{AllocError, Global};
use std::collections::BTreeMap;
use types_core::{Scheme, Sha256Digest, Write};

/// How many reports are known at most.
const MOST_SEEN: usize = 65_536;

/// The reports of all correct members, one behind the other. What several of them report alike mostly stands there once: an audit
/// names the same whether a report is told once or twice.
#[derive(Drop)]
pub struct Reports {
    alloc: Global,
    bytes: Vec<u8>,
    /// Where the last report with this fingerprint begins.
    seen: BTreeMap<u64, usize>,
}

impl Reports {
    /// None.
    pub fn new(alloc: Global) -> Self {
        Reports {
            alloc,
            bytes: Vec::new(alloc),
            seen: BTreeMap::new(alloc),
        }
    }

    /// Their bytes.
    pub fn bytes(&self) -> &[u8] {
        self.bytes.as_slice()
    }

    /// Takes up a report.
    pub fn add<S: Scheme<Sha256Digest>>(
        &mut self,
        report: &Activity<S, Sha256Digest>,
    ) -> Result<(), AllocError> {
        let start = self.bytes.len();
        report.write(&mut self.bytes)?;
        let fingerprint = self.fingerprint_from(start);
        if self.is_known(fingerprint, start) {
            self.bytes.truncate(start);
            return Ok(());
        }
        if self.seen.len() >= MOST_SEEN {
            self.seen.clear();
        }
        self.seen.insert(fingerprint, start)?;
        Ok(())
    }

    /// The fingerprint of the last report, which begins there.
    fn fingerprint_from(&self, start: usize) -> u64 {
        match self.bytes.get(start..) {
            Some(report) => fingerprint_of(report),
            None => 0,
        }
    }

    /// Whether the last report, which begins there, stands before it already.
    fn is_known(&self, fingerprint: u64, start: usize) -> bool {
        let Some(first) = self.seen.get(&fingerprint) else {
            return false;
        };
        let Some((before, report)) = self.bytes.split_at_checked(start) else {
            return false;
        };
        let Some(end) = first.checked_add(report.len()) else {
            return false;
        };
        match before.get(*first..end) {
            Some(held) => held == report,
            None => false,
        }
    }
}

/// A number that few reports have in common: of the last bytes, which are those of a signature, with the first and the length.
fn fingerprint_of(bytes: &[u8]) -> u64 {
    match bytes {
        [tag, .., a, b, c, d, e, f, g, h] => {
            let ends = u64::from_be_bytes([*a, *b, *c, *d, *e, *f, *g, *h]);
            let length = bytes.len() as u64;
            ends ^ u64::from(*tag) ^ length.wrapping_mul(256)
        }
        _ => 0,
    }
}
