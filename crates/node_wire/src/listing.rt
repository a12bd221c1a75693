//! What steps over events, over a list of them.

ghost use Rattle.std.specs.Prelude.{◌≡◌, IfOk, OnErr};
ghost use Rattle.node_wire.specs.Stepper.{Answer, AnswerBefore, EndsList};

use crate::stepper::Stepper;
use simplex_member::{Event, NodeFault, Reply};
use std::alloc::{AllocError, Global};
use types_core::{Digest, Scheme};

/// What was answered to a list of events.
#[derive(Drop)]
pub struct Answers<S: Scheme<D>, D: Digest> {
    /// The replies, to one event after another.
    pub replies: Vec<Reply<S, D>>,
    /// Why the step over the next event failed, where one did.
    pub fault: Option<NodeFault>,
}

/// Steps over the events, one after another, and hands back the replies. At the first step that fails it ends: the replies are to
/// the events before that, and the fault is the step's.
///
/// # Errors
///
/// `AllocError` where there is no memory for the list: then no step was made.
pub fn answer_list<T: Stepper<Event<D>, Reply<S, D>, N>, S: Scheme<D>, D: Digest, N>(
    alloc: Global,
    node: &mut N,
    events: Vec<Event<D>>,
) -> Result<Answers<S, D>, AllocError>
    ensures answers { IfOk result
        (λ r. EndsList (Answer T.steps node.old node.new) (AnswerBefore T.steps node.old node.new) events.items r.replies.items r.fault) }
    ensures no_room { OnErr result (node.new ≡ node.old) }
{
    let mut replies = Vec::with_capacity(alloc, events.len())?;
    for event in events {
        match T::step(node, event) {
            Ok(reply) => replies.push_reserved(reply),
            Err(fault) => {
                return Ok(Answers {
                    replies,
                    fault: Some(fault),
                });
            }
        }
    }
    Ok(Answers {
        replies,
        fault: None,
    })
}
