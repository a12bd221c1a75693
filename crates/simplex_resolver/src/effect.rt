//! What follows from a certificate or a verdict.

ghost use Rattle.std.specs.Prelude.{◌≡◌, ◌++◌, OnOk};
ghost use Rattle.simplex_resolver.specs.Asking.{reason_word};
ghost use Rattle.simplex_resolver.specs.Outstanding.{fetch, fetch_failed, settled_notarization, settled_nullifications, when};

use crate::ask::Kind;
use std::alloc::AllocError;
use types_core::View;

/// Why a view is fetched.
#[derive(Clone, Copy, Debug, PartialEq, Eq)]
pub enum FetchReason {
    /// No nullification covers the view, and a certificate of a later one is there.
    MissingNullification,
    /// No nullification covers the view, and its verdict was false.
    CertificationFailed,
}

impl FetchReason {
    /// The words for the reason in a trace.
    pub const fn as_str(self) -> &'static str
        ensures { result.now ≡ reason_word self }
    {
        match self {
            FetchReason::MissingNullification => "missing_nullification",
            FetchReason::CertificationFailed => "certification_failed",
        }
    }
}

/// A change of what is asked for.
#[derive(Clone, Copy, Debug, PartialEq, Eq)]
pub enum Effect {
    /// Nullifications are asked for that cover the first of these views, and each later one of them that starts a term.
    Fetch {
        /// The first view.
        first: View,
        /// The last view.
        last: View,
        /// The view of what it follows from.
        cause: View,
        /// Why it is asked for.
        reason: FetchReason,
    },
    /// What is asked for at these views is there, or never will be.
    Settled {
        /// The kind that is settled.
        kind: Kind,
        /// The first view.
        start: View,
        /// The last view.
        end: View,
    },
    /// Nothing is asked for any more up to this view, which is finalized.
    Finalized(View),
    /// No nullification is asked for any more up to this view, which is finalized or certified.
    Raised(View),
}

impl Effect {
    /// These views are fetched since a later one has a certificate.
    pub(crate) fn fetch(first: View, last: View, cause: View) -> Self
        ensures { result ≡ fetch cause (first, last) }
    {
        Effect::Fetch {
            first,
            last,
            cause,
            reason: FetchReason::MissingNullification,
        }
    }

    /// The view is fetched since its verdict was false.
    pub(crate) fn fetch_failed(view: View) -> Self
        ensures { result ≡ fetch_failed view }
    {
        Effect::Fetch {
            first: view,
            last: view,
            cause: view,
            reason: FetchReason::CertificationFailed,
        }
    }

    /// Asks for nullifications of these views are settled.
    pub(crate) fn settled_nullifications(start: View, end: View) -> Self
        ensures { result ≡ settled_nullifications start end }
    {
        Effect::Settled {
            kind: Kind::Nullification,
            start,
            end,
        }
    }

    /// Asks for the notarization of the view are settled.
    pub(crate) fn settled_notarization(view: View) -> Self
        ensures { result ≡ settled_notarization view }
    {
        Effect::Settled {
            kind: Kind::Notarization,
            start: view,
            end: view,
        }
    }
}

/// Adds the effect, where there is one.
pub(crate) fn push_if(
    there: bool,
    effects: &mut Vec<Effect>,
    effect: Effect,
) -> Result<(), AllocError>
    ensures { OnOk result (effects.new.items ≡ effects.old.items ++ when there effect) }
{
    if there {
        effects.push(effect)?;
    }
    Ok(())
}
