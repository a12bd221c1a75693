//! What holds of the effects, and of what is served.

ghost use Rattle.simplex_resolver.specs.Answers.{WhatIsProducedCame};
ghost use Rattle.simplex_resolver.specs.Outstanding.{EffectsLeaveTheOutstanding};

/// The effects of each item, applied in order to the views that were outstanding, leave exactly those that are then.
pub const fn effects_leave_the_outstanding()
    ensures { EffectsLeaveTheOutstanding }
{}

/// Each certificate that is served came: some item brought just these bytes.
pub const fn what_is_produced_came()
    ensures { WhatIsProducedCame }
{}
