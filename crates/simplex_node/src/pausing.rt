//! When a node over streams is to pause.

ghost use Rattle.simplex_node.specs.Pausing.{TellsFinal};

use journal_single::Disk;
use node_steps::Node;
use node_wire::Pause;
use types_core::{Digest, Scheme, View};
use types_terms::Elector;

/// It is to pause once this view, or one above it, is final.
#[derive(Drop)]
pub(crate) struct OnceFinal {
    pub(crate) view: View,
}

impl<S: Scheme<D> + Drop, L: Elector<S, D>, D: Digest, K: Disk> Pause<Node<S, L, D, K>>
    for OnceFinal {
    ghost tells = { λ pause. TellsFinal S.Scheme L.Elector K.Disk pause.view };

    fn is_due(&self, node: &Node<S, L, D, K>) -> bool
        ensures { TellsFinal S.Scheme L.Elector K.Disk self.now.view node.now result }
    {
        self.view <= node.last_finalized()
    }
}
