//! Where a stretch of an input ends.

ghost use Rattle.std.specs.Prelude.{◌≡◌, Bool, false};

/// How a stretch of an input came to its end.
#[derive(Clone, Copy, Debug, Drop, PartialEq, Eq)]
pub enum Stretch {
    /// It was to pause. More of the input may be left.
    Paused,
    /// The input ended between two events.
    Ended,
}

/// What says of an `N` that steps over events whether it is to pause.
pub trait Pause<N> {
    /// Asked of this, it may answer so.
    ghost tells: { Self → N → Bool → Type 0 };

    /// Whether it is to pause.
    fn is_due(&self, node: &N) -> bool
        ensures { tells self.now node.now result };
}

/// It is never to pause.
#[derive(Drop)]
pub(crate) struct Never;

impl<N> Pause<N> for Never {
    ghost tells = { λ never node answer. answer ≡ false };

    fn is_due(&self, node: &N) -> bool {
        false
    }
}
