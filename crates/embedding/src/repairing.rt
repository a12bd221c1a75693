//! The repair of views.

use crate::gathering::Certified;
use simplex_state::resolver::State as Repair;
use simplex_types::{View, Viewable};
use std::alloc::{AllocError, Global};

/// For how many views others are asked at once.
const WINDOW: usize = 1_024;

/// Takes a certificate that verifies: the first views of which nullifications are to be asked for then. One of a view without room
/// is passed over.
pub(crate) fn to_ask_for(
    alloc: Global,
    repair: &mut Repair,
    certificate: &Certified,
) -> Result<Vec<View>, AllocError> {
    let mut views = Vec::new(alloc);
    if !certificate.view().has_room(repair.term_length()) {
        return Ok(views);
    }
    let _ = repair.updated(alloc, certificate)?;
    for view in repair.outstanding() {
        if views.len() == WINDOW {
            break;
        }
        views.push(view)?;
    }
    Ok(views)
}
