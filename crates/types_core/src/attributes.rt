//! What a message belongs to: an epoch, a view, a signer.

ghost use Rattle.std.specs.Prelude.{◌≡◌, ℕ};

use crate::position::{Epoch, Participant, Round, View};

/// A value that belongs to an epoch.
pub trait Epochable {
    /// The number of that epoch.
    ghost epoch_of: { Self → ℕ };

    /// The epoch that the value belongs to.
    fn epoch(&self) -> Epoch
        ensures { result ≡ epoch_of self.now };
}

/// A value that belongs to a view.
pub trait Viewable {
    /// The number of that view.
    ghost view_of: { Self → ℕ };

    /// The view that the value belongs to.
    fn view(&self) -> View
        ensures { result ≡ view_of self.now };
}

/// A value that one member of the committee signed.
pub trait Attributable {
    /// The index of that member.
    ghost signer_of: { Self → ℕ };

    /// The member that signed the value.
    fn signer(&self) -> Participant
        ensures { result ≡ signer_of self.now };
}

impl Epochable for Round {
    ghost epoch_of = { λ round. round.epoch };

    fn epoch(&self) -> Epoch {
        self.epoch
    }
}

impl Viewable for Round {
    ghost view_of = { λ round. round.view };

    fn view(&self) -> View {
        self.view
    }
}
