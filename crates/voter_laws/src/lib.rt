//! What follows from the definitions of what a voter knows, and of what is due by it.
#![tactic(auto)]

mod laws;

pub use laws::{
    a_latch_changes_nothing_due, a_lone_member_stands_on_ground, a_look_leaves_nothing_to_ask,
    a_prune_changes_nothing_due, held_lies_in_its_view, the_timeout_is_the_earliest,
    what_is_due_may_be_recorded, what_is_due_stands_on_ground, what_is_found_good_is_bound,
    what_is_known_is_recorded, what_is_known_stays, what_is_recorded_is_known, windows_are_one,
};
