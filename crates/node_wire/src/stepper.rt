//! What steps over events.

ghost use Rattle.std.specs.Prelude.{Result};
ghost use Rattle.simplex_member.specs.declared.fault.NodeFault.{NodeFault};

use simplex_member::NodeFault;

/// How an `N` steps over events `E`, each with an answer `A`.
pub trait Stepper<E, A, N> {
    /// A step of this over the event may answer so, and leave that.
    ghost steps: { N → E → Result A NodeFault → N → Type 0 };

    /// One step: the answer to an event.
    fn step(node: &mut N, event: E) -> Result<A, NodeFault>
        ensures { steps node.old event result node.new };
}
