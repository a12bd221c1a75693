//! What a voter may build on, and which requests and which votes are due, by what is known of its views; what a member is set up
//! with, starts from and asks for.
#![tactic(auto)]

pub mod ancestry;
mod certificate_fetch;
pub mod config;
mod floor;
pub mod knowledge;
mod laws;
mod proposal_request;
pub mod requests;
pub mod timing;
pub mod votes;

pub use certificate_fetch::CertificateFetch;
pub use floor::{Floor, FloorFault, check_floor};
pub use laws::{one_payload_is_built_on, one_request_is_due};
pub use proposal_request::ProposalRequest;
