//! Who leads a view, and which views a member listens to.
#![tactic(auto)]

pub mod elector;
mod kind;
mod lookahead;
mod plan;
mod terms;
mod viewport;

pub use elector::{
    Elector, Mode, RoundRobin, RoundRobinElector, a_seed_makes_one_order, a_term_has_one_leader,
    each_participant_leads_once,
};
pub use kind::Kind;
pub use lookahead::{
    Lookahead, admission_limit_is_the_last_view_listened_to, few_views_ahead_are_listened_to,
    issuance_floor_leaves_the_optimistic_views_between, what_is_spoken_of_is_listened_to,
};
pub use plan::Plan;
pub use terms::Terms;
pub use viewport::Viewport;
