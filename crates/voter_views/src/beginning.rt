//! Where the member's record begins.

ghost use Rattle.std.specs.Prelude.{◌≡◌, ◌&&◌, true, false, max, unwrap_or, if◌then◌else◌};
ghost use Rattle.voter_views.specs.Beginning.{tells};

use messages_certificates::Artifact;
use types_core::{Digest, Scheme, View};
use voter_rounds::later;

/// Where the member's record begins: behind which view, and whether nothing was recorded yet.
#[derive(Drop)]
pub(crate) struct Beginning {
    pub(crate) floor: View,
    pub(crate) is_blank: bool,
}

impl Beginning {
    /// That of an empty record.
    pub(crate) fn new() -> Self
        ensures floor { result.floor ≡ 0 }
        ensures blank { result.is_blank ≡ true }
    {
        Beginning {
            floor: View::zero(),
            is_blank: true,
        }
    }

    /// Something is recorded that finalizes no view.
    pub(crate) fn tell(&mut self)
        ensures floor { self.new.floor ≡ self.old.floor }
        ensures blank { self.new.is_blank ≡ false }
    {
        self.is_blank = false;
    }

    /// The same, where it is so.
    pub(crate) fn tell_if(&mut self, told: bool)
        ensures floor { self.new.floor ≡ self.old.floor }
        ensures blank { self.new.is_blank ≡ (if told then false else self.old.is_blank) }
    {
        if told {
            self.is_blank = false;
        }
    }

    /// A nullify is recorded, where one was voted that is no repetition.
    pub(crate) fn nullify(&mut self, voted: Option<bool>)
        ensures floor { self.new.floor ≡ self.old.floor }
        ensures blank { self.new.is_blank ≡ (unwrap_or voted true && self.old.is_blank) }
    {
        if let Some(false) = voted {
            self.is_blank = false;
        }
    }

    /// A finalization of this view is recorded.
    pub(crate) fn finalize(&mut self, view: View)
        ensures floor { self.new.floor ≡ (if self.old.is_blank then max view self.old.floor else self.old.floor) }
        ensures blank { self.new.is_blank ≡ false }
    {
        if self.is_blank {
            self.base(view);
        }
        self.is_blank = false;
    }

    /// The record begins behind this view; where one above was named before, behind that.
    pub(crate) fn base(&mut self, view: View)
        ensures floor { self.new.floor ≡ max view self.old.floor }
        ensures blank { self.new.is_blank ≡ self.old.is_blank }
    {
        self.floor = later(self.floor, view);
    }
}

/// Whether an artifact of the record is a vote, which is recorded where it is recalled.
pub(crate) fn is_vote<S: Scheme<D>, D: Digest>(artifact: &Artifact<S, D>) -> bool
    ensures { result ≡ tells artifact.now }
{
    match artifact {
        Artifact::Notarize(_) | Artifact::Nullify(_) | Artifact::Finalize(_) => true,
        Artifact::Notarization(_)
        | Artifact::Certification(_, _)
        | Artifact::Nullification(_)
        | Artifact::Finalization(_) => false,
    }
}
