//! Who leads a view, which views a member listens to, passed on from `types_terms`, and the audit: who is guilty by a list of reports.
#![tactic(auto)]

mod auditing;
mod ballots;
mod cast;
mod choices;
mod laws;
mod nullifies;
mod roster;
mod survey;
mod tally;
mod verdict;

pub use auditing::audit;
pub use laws::{
    a_contradicted_round_names_enough, joined_reports_are_read, names_rest_on_the_reports,
};
pub use simplex_types::SaltedScheme;
pub use types_terms::{
    Elector, Kind, Lookahead, Mode, Plan, RoundRobin, RoundRobinElector, Terms, Viewport,
    a_seed_makes_one_order, a_term_has_one_leader, admission_limit_is_the_last_view_listened_to,
    each_participant_leads_once, elector, few_views_ahead_are_listened_to,
    issuance_floor_leaves_the_optimistic_views_between, what_is_spoken_of_is_listened_to,
};
pub use verdict::Audit;
