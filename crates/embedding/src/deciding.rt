//! The voter.

use simplex_messages::Notarize;
use simplex_rules::elector::{Config as Building, RoundRobin, RoundRobinElector};
use simplex_state::{Config, ForwardPolicy, RepairPolicy, SkipBudget, SkipPolicy, State, Verify};
use simplex_types::{Epoch, PlainScheme, Proposal, Scheme, Sha256Digest, ViewDelta, Viewable};
use std::alloc::{AllocError, Global};
use std::rc::Rc;

/// A member that decides by itself, with leaders in turn.
pub(crate) type Voter = State<PlainScheme, RoundRobinElector, Sha256Digest>;

/// A member that starts at this moment, in milliseconds, on this payload.
pub(crate) fn begun(
    alloc: Global,
    scheme: Rc<PlainScheme>,
    genesis: Sha256Digest,
    now: u64,
) -> Result<Voter, AllocError> {
    let members = Scheme::<Sha256Digest>::participants(&*scheme);
    let elector: RoundRobinElector = Building::<PlainScheme, Sha256Digest>::build(
        &RoundRobin::default(),
        alloc,
        members,
    )?;
    let config = Config {
        epoch: Epoch::new(0),
        floor: genesis,
        leader_timeout: 1000,
        certification_timeout: 2000,
        timeout_retry: 5000,
        view_retention: ViewDelta::new(10),
        skip: SkipPolicy::Enabled {
            timeout: 30_000,
            budget: SkipBudget::Participants,
        },
        forward: ForwardPolicy::Disabled,
        repair: RepairPolicy::usual(),
        track_historical_votes: false,
    };
    let mut voter = State::new(alloc, scheme, elector, &config)?;
    voter.set_genesis(now, config.floor)?;
    Ok(voter)
}

/// The leader's proposal came in: the vote to notarize it, if it is due.
pub(crate) fn vote_for(
    voter: &mut Voter,
    proposal: &Proposal<Sha256Digest>,
    now: u64,
) -> Result<Option<Notarize<PlainScheme, Sha256Digest>>, AllocError> {
    voter.set_proposal(proposal.view(), proposal)?;
    if let Verify::Ready(_context, asked) = voter.try_verify(now)? {
        // Here the application is asked whether the proposal is good in its context; this one says yes to all.
        voter.verified(asked.view())?;
    }
    voter.construct_notarize(proposal.view())
}
