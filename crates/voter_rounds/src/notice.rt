//! What may be told of a view.

use types_core::View;
use voter_history::Token;

/// What happens to a view whatever happened to it before, and asks for no answer.
#[derive(Drop)]
pub enum Notice {
    /// What its proposal was bound to was dropped.
    Unbound,
    /// The build that was asked for was given back.
    BuildReleased,
    /// The certificate of another view, for which its proposal waits, was asked for.
    AncestryAsked(View),
    /// A verdict was asked for, under this name.
    CertifyAsked(Token),
}
