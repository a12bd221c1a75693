//! What a certificate says of a round.

ghost use Rattle.std.specs.Prelude.{Some};
ghost use Rattle.types_terms.specs.Kind.{kind_word};

use std::fmt;

/// The kind of a certificate, and of the votes that it is made of.
#[derive(Clone, Copy, Debug, PartialEq, Eq)]
pub enum Kind {
    /// A proposal of the round may be built on.
    Notarization,
    /// The round is given up.
    Nullification,
    /// A proposal of the round is final.
    Finalization,
}

impl fmt::Display for Kind {
    ghost output = { λ kind. Some (kind_word kind) };

    fn fmt<W: fmt::Write>(&self, f: &mut fmt::Formatter<W>) -> fmt::Result {
        f.write_str(match self {
            Kind::Notarization => "notarization",
            Kind::Nullification => "nullification",
            Kind::Finalization => "finalization",
        })
    }
}
