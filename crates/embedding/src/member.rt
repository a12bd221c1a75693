//! A whole node: a committee of one, over a disk in memory, set up as the program is.

use simplex_cli::{config, elector, scheme};
use simplex_journal::MemoryDisk;
use simplex_node::{Action, Event, Node, run};
use simplex_rules::RoundRobinElector;
use simplex_types::{PlainScheme, Sha256Digest, View};
use std::alloc::{AllocError, Global};

/// What comes to the node.
type Arrival = Event<Sha256Digest>;

/// What the node hands out.
type Order = Action<PlainScheme, Sha256Digest>;

/// The node of a member.
type Member = Node<PlainScheme, RoundRobinElector, Sha256Digest, MemoryDisk>;

/// What the application answers to what a node asks for: a payload to each build, yes to each certification. Whatever else is
/// handed out, packets and reports, a host carries on.
fn answer(action: &Order) -> Option<Arrival> {
    match action {
        Action::Build { number, .. } => Some(Event::Built {
            number: *number,
            payload: Some(Sha256Digest::new([0xaa; 32])),
        }),
        Action::Certify(proposal) => Some(Event::Verdict {
            view: proposal.round.view,
            ok: true,
        }),
        _ => None,
    }
}

/// Appends the answers to these actions, in their order.
fn answer_all(actions: &[Order], events: &mut Vec<Arrival>) -> Result<(), AllocError> {
    for action in actions {
        if let Some(event) = answer(action) {
            events.push(event)?;
        }
    }
    Ok(())
}

/// Steps over the events, and answers what the node asks for then. Behind a step that failed it asks for nothing.
fn go_on(
    alloc: Global,
    node: &mut Member,
    events: Vec<Arrival>,
) -> Result<Vec<Arrival>, AllocError> {
    let mut next = Vec::new(alloc);
    for reply in &run(alloc, node, events)?.replies {
        answer_all(&reply.actions, &mut next)?;
    }
    Ok(next)
}

/// Opens an empty record: the node, and the answers to what it asks for first; or nothing, where it is not opened.
fn begun(alloc: Global) -> Result<Option<(Member, Vec<Arrival>)>, AllocError> {
    let scheme = scheme(alloc, 0, 1)?;
    let elector = elector(alloc, 1)?;
    let disk = MemoryDisk::new(alloc);
    let Ok((node, actions)) = Node::open(alloc, config(), scheme, elector, disk, 0) else {
        return Ok(None);
    };
    let mut events = Vec::new(alloc);
    answer_all(&actions, &mut events)?;
    Ok(Some((node, events)))
}

/// The last view that a committee of one finalizes, where its node is answered so many times; or nothing, where it is not opened.
pub(crate) fn finalized_behind(alloc: Global, answers: u32) -> Result<Option<View>, AllocError> {
    let Some((mut node, mut events)) = begun(alloc)? else {
        return Ok(None);
    };
    for _ in 0..answers {
        events = go_on(alloc, &mut node, events)?;
    }
    Ok(Some(node.last_finalized()))
}
