//! Examples of networks, which show that what is asked of one can be met, and that what is told of contradictions can come about.
#![tactic(auto)]

mod laws;

pub use laws::{
    contradictions_are_named, members_begin_at_floors, networks_are_there,
    plain_contradictions_are_named, plain_networks_are_there, plain_views_are_finalized,
    two_views_are_finalized,
};
