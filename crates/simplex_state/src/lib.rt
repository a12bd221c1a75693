//! The voter: a member without network, clock or disk, which says what is due; how a member is set up; and repair (`resolver`).
#![tactic(auto)]

mod owed;
mod state;
mod verify;
mod wanted;

pub use simplex_resolver as resolver;
pub use state::State;
pub use verify::Verify;
pub use voter_rules::config::{
    Again, Config, ConfigFault, ForwardPolicy, RepairPolicy, SkipBudget, SkipPolicy, check_config,
};
pub use voter_rules::{CertificateFetch, Floor, FloorFault, ProposalRequest, check_floor};
