//! What is asked of other members.

ghost use Rattle.std.specs.Prelude.{◌≡◌};
ghost use Rattle.simplex_resolver.specs.Asking.{kind_word};
ghost use Rattle.simplex_resolver.specs.declared.ask.Kind.TheVariants as kind;
ghost use Rattle.simplex_resolver.specs.declared.ask.Until.TheVariants as until;

/// A kind of certificate that is asked for.
#[derive(Clone, Copy, Debug, PartialEq, Eq, PartialOrd, Ord)]
pub enum Kind {
    /// A nullification that covers the view.
    Nullification,
    /// A notarization of the view.
    Notarization,
}

impl Kind {
    /// The word for the kind in a trace.
    pub const fn as_str(self) -> &'static str
        ensures { result.now ≡ kind_word self }
    {
        match self {
            Kind::Nullification => "nullification",
            Kind::Notarization => "notarization",
        }
    }
}

/// Until when an ask stands, where nothing settles it before.
#[derive(Clone, Copy, Debug, PartialEq, Eq, PartialOrd, Ord)]
pub enum Until {
    /// Until the view is at or below the highest view that was finalized or certified.
    Floor,
    /// Until the view is at or below the highest finalized view.
    Finalization,
}

/// What is asked for, and until when.
#[derive(Clone, Copy, Debug, PartialEq, Eq, PartialOrd, Ord)]
pub struct Ask {
    /// What is asked for.
    pub kind: Kind,
    /// Until when.
    pub until: Until,
}

impl Ask {
    /// The ask for what lets a member leave a view behind.
    pub const fn backfill() -> Self
        ensures kind { result.kind ≡ kind.Nullification }
        ensures until { result.until ≡ until.Floor }
    {
        Ask {
            kind: Kind::Nullification,
            until: Until::Floor,
        }
    }

    /// The ask for what a proposal's ancestry rests on.
    pub const fn ancestry(kind: Kind) -> Self
        ensures kind { result.kind ≡ kind }
        ensures until { result.until ≡ until.Finalization }
    {
        Ask {
            kind,
            until: Until::Finalization,
        }
    }
}
