//! A voter.
#![tactic(auto, unfolding(crate::specs::State::Keeps))]

mod answering;
mod building;
mod certifying;
mod entry;
mod keeping;
mod knowing;
mod learning;
mod owing;
mod proposing;
mod sending;
mod starting;
mod timeouts;
mod verifying;
mod voting;

ghost use Rattle.std.specs.Prelude.{[], IfOk};
ghost use Rattle.voter_views.specs.Views as above;
ghost use Rattle.voter_views.specs.Views.{built};
ghost use Rattle.simplex_state.specs.State.{AtEach, Keeps};

use crate::owed::Owed;
use std::alloc::{AllocError, Global};
use std::collections::BTreeSet;
use std::rc::Rc;
use types_core::{Digest, Scheme, View};
use types_terms::Elector;
use voter_rules::config::Config;
use voter_views::Views;

/// A member without network, clock or disk: what it has learnt, what it asks its application for, and which votes it casts.
///
/// All moments are in milliseconds. Behind a refused call it may be used no more.
#[derive(Drop)]
pub struct State<S: Scheme<D>, L: Elector<S, D>, D: Digest> {
    scheme: Rc<S>,
    views: Views<S, L, D>,
    timeout_retry: u64,
    skip_budget: u64,
    // The views for whose verdicts something may be to ask.
    candidates: BTreeSet<View>,
    // The views that may owe a notarize, and those that may owe a finalize.
    notarizes: Owed,
    finalizes: Owed,
}

impl<S: Scheme<D> + Drop, L: Elector<S, D>, D: Digest> State<S, L, D> {
    /// A voter of this member of the committee that the elector was built for, set up so, to which nothing has happened. What is
    /// wrong with a configuration `check_config` tells.
    ///
    /// # Errors
    ///
    /// `AllocError` where memory ran out.
    pub fn new<F>(
        alloc: Global,
        scheme: Rc<S>,
        elector: L,
        config: &Config<F>,
    ) -> Result<Self, AllocError>
        requires { L.built_for elector (S.size scheme.value) }
        ensures { IfOk result (λ state. Keeps S.Scheme L.Elector (built S.Scheme L.Elector scheme.value elector config.now) state []) }
    {
        let skip_budget = config.skip.budget(scheme.participants());
        let shared = scheme.clone()?;
        let views = Views::new(alloc, shared, elector, config)?;
        Ok(State {
            scheme,
            views,
            timeout_retry: config.timeout_retry,
            skip_budget,
            candidates: BTreeSet::new(alloc),
            notarizes: Owed::new(alloc),
            finalizes: Owed::new(alloc),
        })
    }

    /// What it has learnt of its views, which answer what is known of each.
    pub const fn views(&self) -> &Views<S, L, D>
        ensures { AtEach S.Scheme L.Elector self.now (λ s h. above.Keeps S.Scheme L.Elector s result.now h) }
    {
        &self.views
    }
}
