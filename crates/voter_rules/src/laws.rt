//! What follows from the definitions of what is due.

ghost use Rattle.voter_rules.specs.Laws.{OneIsDecided, OneIsFound, OneIsPreferred, OneIsSupported};

use types_core::Digest;

/// A view supports at most one payload before it is certified, and there is at most one parent to build on.
pub fn one_payload_is_built_on<D: Digest>()
    ensures supported { OneIsSupported D }
    ensures preferred { OneIsPreferred D }
{}

/// Of all that may be answered to what is to be done for a view's proposal, one answer alone is right; and so of what is to be
/// asked for its verdict.
pub fn one_request_is_due<D: Digest>()
    ensures verify { OneIsFound D }
    ensures certify { OneIsDecided D }
{}
