//! What a node tells where the votes of a view refuse what its own tests let pass.

ghost use Rattle.std.specs.Prelude.{◌≡◌};
ghost use Rattle.simplex_member.specs.declared.fault.NodeFault.TheVariants.{Memory};

use simplex_batcher::BatcherFault;
use simplex_member::NodeFault;

/// The fault of a step whose vote, certificate or leader the votes of its view refuse. They refuse it for want of memory alone
/// wherever a history leads to them, by the clause `fault` of each call of `Acceptance`; elsewhere the step tells the same.
pub fn refused_for(fault: BatcherFault) -> NodeFault
    ensures { result ≡ Memory }
{
    match fault {
        BatcherFault::Memory => NodeFault::Memory,
        BatcherFault::WrongRound | BatcherFault::OtherLeader | BatcherFault::Contradicts => {
            NodeFault::Memory
        }
    }
}
