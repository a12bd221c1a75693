//! What a node holds while no step of it has failed, and how it goes through its record while it opens; what its layers learn, and what
//! both halves of its work hand out.
#![tactic(auto)]

mod casting;
mod certificates;
mod entered;
mod entering;
mod handing;
mod layers;
mod node_state;
mod recalling;
mod rewriting;
mod saying;
mod settings;
mod telling;
mod told_layers;

pub use casting::tell_own_vote;
pub use certificates::{final_proposal, tell_voter, tell_votes};
pub use entered::enter;
pub use layers::Layers;
pub use node_state::Core;
pub use settings::Settings;
pub use told_layers::{
    give, judge_repair, knows_like, own_votes_come_free, update_repair,
    what_is_not_recorded_is_unknown, what_is_unknown_is_not_recorded,
};
