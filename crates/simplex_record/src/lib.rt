//! What a member records, which rules make a record lawful, and what members whose records are lawful agree on.
#![tactic(auto)]

mod adding;
mod certificates;
mod checking;
mod coverage;
mod laws;
mod numbering;
mod owner;
mod rewriting;
mod standing;
mod votes;

pub use checking::{check, first_refused};
pub use coverage::Coverage;
pub use laws::{
    a_lawful_record_grows, a_rewritten_record_is_lawful, agreement, chain,
    ever_lawful_members_vote_lawfully, lawful_records_leave_room, no_own_vote_stands_in_the_way,
    one_judgement, records_stand_on_ground, three_lists_go_on, verdicts_follow_their_notarizations,
    what_is_kept_is_lawful, whole_records_vote_lawfully,
};
pub use owner::Owner;
pub use rewriting::{reaches_above, rewritten};
pub use standing::Standing;
