//! The steps of a node.

ghost use Rattle.simplex_node.specs.Stepping.{IsStep};

use journal_single::Disk;
use node_steps::Node;
use node_wire::Stepper;
use simplex_member::{Event, NodeFault, Reply, Speaks};
use types_core::{Digest, Scheme};
use types_terms::Elector;

/// A node steps by its own step.
pub(crate) struct NodeSteps;

impl<S: Scheme<D> + Drop, L: Elector<S, D>, D: Digest, K: Disk> Stepper<
    Event<D>,
    Reply<S, D>,
    Node<S, L, D, K>,
> for NodeSteps {
    ghost steps = { IsStep S.Scheme L.Elector K.Disk ⟦<S as Speaks<D>>⟧.formats };

    fn step(node: &mut Node<S, L, D, K>, event: Event<D>) -> Result<Reply<S, D>, NodeFault>
        ensures { IsStep S.Scheme L.Elector K.Disk ⟦<S as Speaks<D>>⟧.formats node.old event result node.new }
    {
        node.step(event)
    }
}
