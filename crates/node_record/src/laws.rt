//! What lawful records tell, and what leaves the tables where they stand.

ghost use Rattle.std.specs.Prelude.{◌≡◌, ◌∷◌, ℕ, true, List, Contains, map};
ghost use Rattle.messages_certificates.specs.Artifact.{artifact_spelling};
ghost use Rattle.messages_certificates.specs.declared.artifact.Artifact.{Artifact};
ghost use Rattle.messages_certificates.specs.declared.artifact.Artifact.TheVariants as artifact;
ghost use Rattle.messages_certificates.specs.declared.nullify.Nullify.{Nullify};
ghost use Rattle.simplex_record.specs.declared.owner.Owner.{Owner};
ghost use Rattle.simplex_record.specs.Record.{current_view, entries};
ghost use Rattle.simplex_record.specs.Lawful.{IsLawful};
ghost use Rattle.journal_books.specs.Books.{LeaveBook};
ghost use Rattle.simplex_member.specs.Point.{History, Point};
ghost use Rattle.node_record.specs.declared.ledger.Ledger.{Ledger};
ghost use Rattle.node_record.specs.declared.tables.Tables.{Tables};
ghost use Rattle.node_record.specs.Ledger.{KeepsRecord, book_of};
ghost use Rattle.node_record.specs.Recorded.{IsLastNullifyOf};
ghost use Rattle.node_record.specs.Tables.{KeepsTables, is_quiet};

use journal_books::a_book_at_rest_leaves_its_record;
use messages_certificates::Artifact;
use simplex_journal::Disk;
use types_core::{Digest, Scheme};

/// Where a lawful record has an own nullify of the current view, that is the last own nullify. So the one that
/// is said again is found without a look at the others.
pub fn the_nullify_of_the_current_view_is_the_last<S: Scheme<D>, D: Digest>()
    ensures { (scheme : S) (owner : Owner) (xs : List (Artifact S D S.PublicKey S.Signature S.Certificate))
        (v w : Nullify S D S.PublicKey S.Signature S.Certificate)
        → IsLawful (S.attests scheme) (S.certifies scheme) owner xs
        → Contains xs (artifact.Nullify v)
        → v.round.view ≡ current_view owner.term_length (entries xs)
        → IsLastNullifyOf xs w
        → w ≡ v }
{}

/// What says nothing of requests, of asks, of who was heard or of the time leaves the tables where they stand.
pub fn quiet_points_leave_the_tables<S: Scheme<D>, D: Digest>()
    ensures { (low : ℕ) (tables : Tables S D S.PublicKey S.Signature S.Certificate) (h : History S D S.PublicKey S.Signature S.Certificate)
        (p : Point S D S.PublicKey S.Signature S.Certificate)
        → is_quiet p ≡ true
        → KeepsTables low tables h
        → KeepsTables low tables (p ∷ h) }
{}

/// While nothing is asked of its disks, a crash leaves the record that a ledger holds.
pub fn a_ledger_at_rest_leaves_its_record<S: Scheme<D>, D: Digest, K: Disk>()
    ensures { (owner : Owner) (ledger : Ledger S D K S.PublicKey S.Signature S.Certificate)
        (xs : List (Artifact S D S.PublicKey S.Signature S.Certificate))
        → KeepsRecord K.Disk (artifact_spelling D.spelling S.Signature.spelling S.Certificate.spelling) owner ledger xs
        → K.keeps
        → LeaveBook K.Disk (book_of ledger) (book_of ledger)
        (λ read. read ≡ map (artifact_spelling D.spelling S.Signature.spelling S.Certificate.spelling) xs) }
{
    a_book_at_rest_leaves_its_record::<Artifact<S, D>, K>();
}
