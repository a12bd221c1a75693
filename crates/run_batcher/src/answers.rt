//! What the calls on a round answer, said.

use simplex_batcher::{Admission, Batch, BatcherFault, Kind};
use simplex_messages::{Activity, Certificate};
use test_messages::{SayCertificates, SayMessages};
use test_words::{Committee, Say, Trouble};
use types_core::Sha256Digest;

/// The kind of this name.
pub(crate) fn kind_of(word: &str) -> Result<Kind, Trouble> {
    match word {
        "notarization" => Ok(Kind::Notarization),
        "nullification" => Ok(Kind::Nullification),
        "finalization" => Ok(Kind::Finalization),
        _ => Err(Trouble::Unreadable),
    }
}

/// `ADDED BLOCK REPORT`.
pub(crate) fn say_admission<S: Committee>(
    admission: &Admission<S, Sha256Digest>,
    say: &mut Say,
) -> Result<(), Trouble> {
    say.truth(admission.added)?;
    say.gap()?;
    say.truth(admission.block)?;
    say.gap()?;
    say.report(&admission.report)
}

/// `NEW REPORT`.
pub(crate) fn say_cast<S: Committee>(
    report: &Option<Activity<S, Sha256Digest>>,
    say: &mut Say,
) -> Result<(), Trouble> {
    say.truth(report.is_some())?;
    say.gap()?;
    say.report(report)
}

/// `PROCESSED INVALID FALLBACK CERT`, or `-`.
pub(crate) fn say_batch<S: Committee>(
    batch: &Option<Batch<Certificate<S, Sha256Digest>>>,
    say: &mut Say,
) -> Result<(), Trouble> {
    let Some(batch) = batch else {
        return say.none();
    };
    say.number(batch.processed as u64)?;
    say.gap()?;
    say.members(&batch.invalid)?;
    say.gap()?;
    say.truth(batch.fallback)?;
    say.gap()?;
    say.certificate_or(batch.certificate.as_ref())
}

/// `fault 1` for another round, `fault 2` for another leader, `fault 3` for an own vote that contradicts.
pub(crate) fn say_fault(fault: BatcherFault, say: &mut Say) -> Result<(), Trouble> {
    match fault {
        BatcherFault::WrongRound => say.text("fault 1"),
        BatcherFault::OtherLeader => say.text("fault 2"),
        BatcherFault::Contradicts => say.text("fault 3"),
        BatcherFault::Memory => Err(Trouble::Memory),
    }
}
