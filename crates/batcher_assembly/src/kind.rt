//! The order in which certificates are made.

ghost use Rattle.std.specs.Prelude.{◌≡◌};
ghost use Rattle.batcher_assembly.specs.KindOrder.{in_turn};

use types_terms::Kind;

/// The kinds, in the order in which certificates are made.
pub const fn in_turn() -> [Kind; 3]
    ensures { result ≡ in_turn }
{
    [Kind::Notarization, Kind::Nullification, Kind::Finalization]
}
