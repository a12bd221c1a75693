//! What an opening brings is recorded behind what it finds.

ghost use Rattle.std.specs.Prelude.{◌≡◌, ◌≢◌, ◌≤◌, ◌⊎◌, ◌++◌, ◌∷◌, [], ℕ, List, map, false, Some, IfErr, IfOk, IsErrOf, OnOk};
ghost use Rattle.types_codec.specs.Codec.{Readable};
ghost use Rattle.messages_certificates.specs.Artifact.{artifact_spelling};
ghost use Rattle.messages_certificates.specs.declared.artifact.Artifact.{Artifact};
ghost use Rattle.messages_certificates.specs.declared.artifact.Artifact.TheVariants as artifact;
ghost use Rattle.simplex_record.specs.declared.owner.Owner.{Owner};
ghost use Rattle.simplex_record.specs.Lawful.{IsLawful};
ghost use Rattle.simplex_record.specs.Record.{entry, entries};
ghost use Rattle.simplex_record.specs.Rules.{MayFollow};
ghost use Rattle.voter_rules.specs.declared.floor.FloorFault.{FloorFault};
ghost use Rattle.voter_rules.specs.Floor.{AppliesToFinal, AppliesToFloor};
ghost use Rattle.journal_books.specs.declared.disks.Disks.{Disks};
ghost use Rattle.journal_books.specs.Books.{AreLeftAsTheyWere, HasFailed, HasNotFailed, IsForeignOn, Leave, LeaveBook, LeaveSince, MayBeRead, has_failed};
ghost use Rattle.simplex_member.specs.declared.fault.OpenFault.TheVariants as open_fault;
ghost use Rattle.simplex_member.specs.Setup.{brought_by};
ghost use Rattle.node_record.specs.Founding.{HoldsBehind, IsReadBehind, MayBeFounded, OpensFrom};
ghost use Rattle.node_record.specs.Ledger.{IsContradiction, KeepsRecord, book_of, disks_of};

use crate::laws::a_ledger_at_rest_leaves_its_record;
use crate::ledger::Ledger;
use journal_books::Disks;
use messages_certificates::{Artifact, Finalization};
use simplex_journal::Disk;
use simplex_member::{NodeFault, OpenFault};
use simplex_record::{Owner, a_lawful_record_grows};
use std::alloc::Global;
use types_core::{Digest, Duplicate, EncodeSize, Read, Scheme, Viewable, Write};
use voter_rules::Floor;

/// The most bytes of an artifact that a record takes, be it over one disk or over two.
const LONGEST: usize = u32::MAX as usize - 1;

impl<S: Scheme<D>, D: Digest, K: Disk> Ledger<S, D, K> {
    /// Opens the record that is read of disks, where it is a lawful record of this owner, and records behind it what the opening
    /// brings: a finalization that lies above all that is final there, like one that was accepted. One that doesn't is ignored.
    ///
    /// # Errors
    ///
    /// Those of [`Ledger::open`], with the disks. A finalization that is too long for a disk, or can't be read again, is told as
    /// [`OpenFault::Memory`].
    pub fn open_from(
        alloc: Global,
        scheme: &S,
        owner: Owner,
        floor: &Floor<S, D>,
        disks: Disks<K>,
    ) -> Result<Self, (OpenFault, Disks<K>)>
        requires sound { (fault : FloorFault) → ¬ AppliesToFloor (S.certifies scheme.now) owner.term_length owner.epoch floor.now fault }
        requires few { S.size scheme.now ≤ 65535 }
        ensures opened { IfOk result (λ ledger.
            OpensFrom K.Disk (artifact_spelling D.spelling S.Signature.spelling S.Certificate.spelling)
            (Readable ⟦<Artifact<S, D> as Write>⟧.fits (⟦<Artifact<S, D> as Read>⟧.within 65535))
            (Readable ⟦<Artifact<S, D> as Write>⟧.fits (⟦<Artifact<S, D> as Read>⟧.within (S.size scheme.now))) (S.attests scheme.now)
            (S.certifies scheme.now) owner (brought_by floor.now) disks ledger) }

        // After a crash at any moment of the call a record is read that might have been read after a crash before it, or what was
        // found with the finalization behind it.
        ensures any_moment { IfOk result (λ ledger.
            K.keeps
            → LeaveSince K.Disk disks (book_of ledger) (MayBeFounded K.Disk
            (artifact_spelling D.spelling S.Signature.spelling S.Certificate.spelling)
            (Readable ⟦<Artifact<S, D> as Write>⟧.fits (⟦<Artifact<S, D> as Read>⟧.within 65535))
            (Readable ⟦<Artifact<S, D> as Write>⟧.fits (⟦<Artifact<S, D> as Read>⟧.within (S.size scheme.now))) (S.attests scheme.now)
            (S.certifies scheme.now) owner (brought_by floor.now) disks)) }
        ensures any_moment_of_a_fault { IfErr result (λ refused.
            K.keeps
            → Leave K.Disk disks refused.1 (MayBeFounded K.Disk (artifact_spelling D.spelling S.Signature.spelling S.Certificate.spelling)
            (Readable ⟦<Artifact<S, D> as Write>⟧.fits (⟦<Artifact<S, D> as Read>⟧.within 65535))
            (Readable ⟦<Artifact<S, D> as Write>⟧.fits (⟦<Artifact<S, D> as Read>⟧.within (S.size scheme.now))) (S.attests scheme.now)
            (S.certifies scheme.now) owner (brought_by floor.now) disks)) }

        // A fault says what is on the disks.
        ensures faults { IfErr result (λ refused.
            (refused.0 ≡ open_fault.Device) ⊎ ((refused.0 ≡ open_fault.Memory) ⊎
            (((place : ℕ) × (refused.0 ≡ open_fault.Foreign place)) ⊎ ((position : ℕ) × (refused.0 ≡ open_fault.Contradiction position))))) }
        ensures foreign { IfErr result (λ refused.
            (place : ℕ)
            → refused.0 ≡ open_fault.Foreign place
            → K.keeps
            → IsForeignOn K.Disk (Readable ⟦<Artifact<S, D> as Write>⟧.fits (⟦<Artifact<S, D> as Read>⟧.within 65535))
            ⟦<Artifact<S, D> as Write>⟧.spelling disks place) }
        ensures contradiction { IfErr result (λ refused.
            (position : ℕ)
            → refused.0 ≡ open_fault.Contradiction position
            → IsContradiction K.Disk (artifact_spelling D.spelling S.Signature.spelling S.Certificate.spelling)
            (Readable ⟦<Artifact<S, D> as Write>⟧.fits (⟦<Artifact<S, D> as Read>⟧.within 65535)) (S.attests scheme.now)
            (S.certifies scheme.now) owner disks position) }

        // Where they aren't opened for what stands on them, nothing was written or cut.
        ensures untouched { IfErr result (λ refused.
            refused.0 ≢ open_fault.Device → refused.0 ≢ open_fault.Memory → K.keeps → AreLeftAsTheyWere K.Disk disks refused.1) }

        // A disk has failed once more exactly where that is told.
        ensures device { IfErr result (λ refused. refused.0 ≡ open_fault.Device → HasFailed K.Disk disks refused.1) }
        ensures no_device { IfErr result (λ refused. refused.0 ≢ open_fault.Device → HasNotFailed K.Disk disks refused.1) }
        ensures no_fault { IfOk result (λ ledger. HasNotFailed K.Disk disks (disks_of ledger)) }
    {
        // A second one, since a call by value takes its own away.
        let same = Owner { ..owner };
        match Ledger::open(alloc, scheme, same, disks) {
            Ok(ledger) => match floor {
                Floor::Genesis(_) => Ok(ledger),
                Floor::Finalized(finalization) => {
                    ledger.found(alloc, scheme, owner, finalization)
                }
            },
            Err(refused) => Err(refused),
        }
    }

    /// Records a finalization that an opening brings behind what it found, where it lies above all that is final there.
    #[tactic(auto, using(journal_books::specs::BooksLaws::same_not_failed))]
    fn found(
        self,
        alloc: Global,
        scheme: &S,
        owner: Owner,
        floor: &Finalization<S, D>,
    ) -> Result<Self, (OpenFault, Disks<K>)>
        requires sound { (fault : FloorFault) → ¬ AppliesToFinal (S.certifies scheme.now) owner.term_length owner.epoch floor.now fault }
        requires few { S.size scheme.now ≤ 65535 }
        requires running { has_failed (book_of self) ≡ false }
        ensures holds { IfOk result (λ ledger.
            (xs : List (Artifact S D S.PublicKey S.Signature S.Certificate))
            → KeepsRecord K.Disk (artifact_spelling D.spelling S.Signature.spelling S.Certificate.spelling) owner self xs
            → IsLawful (S.attests scheme.now) (S.certifies scheme.now) owner xs
            → HoldsBehind (Readable ⟦<Artifact<S, D> as Write>⟧.fits (⟦<Artifact<S, D> as Read>⟧.within (S.size scheme.now)))
            (S.attests scheme.now) (S.certifies scheme.now) owner (Some floor.now)
            (artifact_spelling D.spelling S.Signature.spelling S.Certificate.spelling) K.Disk xs ledger) }
        ensures any_moment { IfOk result (λ ledger.
            (xs : List (Artifact S D S.PublicKey S.Signature S.Certificate)) (before : Disks K)
            → KeepsRecord K.Disk (artifact_spelling D.spelling S.Signature.spelling S.Certificate.spelling) owner self xs
            → IsLawful (S.attests scheme.now) (S.certifies scheme.now) owner xs
            → K.keeps
            → MayBeRead K.Disk before (map (artifact_spelling D.spelling S.Signature.spelling S.Certificate.spelling) xs)
            → LeaveSince K.Disk before (book_of self) (MayBeRead K.Disk before)
            → LeaveSince K.Disk before (book_of ledger) (λ read.
            MayBeRead K.Disk before read ⊎
            IsReadBehind (Readable ⟦<Artifact<S, D> as Write>⟧.fits (⟦<Artifact<S, D> as Read>⟧.within (S.size scheme.now)))
            (S.attests scheme.now) (S.certifies scheme.now) owner (Some floor.now)
            (artifact_spelling D.spelling S.Signature.spelling S.Certificate.spelling) xs read)) }
        ensures any_moment_of_a_fault { IfErr result (λ refused.
            (xs : List (Artifact S D S.PublicKey S.Signature S.Certificate)) (before : Disks K)
            → KeepsRecord K.Disk (artifact_spelling D.spelling S.Signature.spelling S.Certificate.spelling) owner self xs
            → IsLawful (S.attests scheme.now) (S.certifies scheme.now) owner xs
            → K.keeps
            → MayBeRead K.Disk before (map (artifact_spelling D.spelling S.Signature.spelling S.Certificate.spelling) xs)
            → LeaveSince K.Disk before (book_of self) (MayBeRead K.Disk before)
            → Leave K.Disk before refused.1 (λ read.
            MayBeRead K.Disk before read ⊎
            IsReadBehind (Readable ⟦<Artifact<S, D> as Write>⟧.fits (⟦<Artifact<S, D> as Read>⟧.within (S.size scheme.now)))
            (S.attests scheme.now) (S.certifies scheme.now) owner (Some floor.now)
            (artifact_spelling D.spelling S.Signature.spelling S.Certificate.spelling) xs read)) }
        ensures faults { IfErr result (λ refused. (refused.0 ≡ open_fault.Device) ⊎ (refused.0 ≡ open_fault.Memory)) }
        ensures device { IfErr result (λ refused. refused.0 ≡ open_fault.Device → HasFailed K.Disk (disks_of self) refused.1) }
        ensures no_device { IfErr result (λ refused. refused.0 ≢ open_fault.Device → HasNotFailed K.Disk (disks_of self) refused.1) }
        ensures no_fault { IfOk result (λ ledger. HasNotFailed K.Disk (disks_of self) (disks_of ledger)) }
    {
        a_lawful_record_grows::<S, D>();
        let mut ledger = self;
        let view = floor.view();
        let last = ledger.recorded.last_finalized();
        if view <= last {
            return Ok(ledger);
        }
        // That it certifies was tested before any disk was touched (`check_floor`). The proof takes it from this test.
        if !floor.verify(scheme) {
            unreachable!()
        }
        match ledger.take_in(alloc, scheme.participants(), floor) {
            Ok(()) => Ok(ledger),
            Err(fault) => Err((fault, ledger.close())),
        }
    }

    /// Records a finalization, which has to be one that can be read again in a committee of so many. That it can, and is not too long
    /// for a disk, is tested.
    #[tactic(auto, using(journal_books::specs::BooksLaws::same_not_failed))]
    fn take_in(
        &mut self,
        alloc: Global,
        members: u32,
        floor: &Finalization<S, D>,
    ) -> Result<(), OpenFault>
        requires few { members ≤ 65535 }
        requires running { has_failed (book_of self.old) ≡ false }
        ensures keeps { OnOk result ((owner : Owner) (xs : List (Artifact S D S.PublicKey S.Signature S.Certificate))
            → KeepsRecord K.Disk (artifact_spelling D.spelling S.Signature.spelling S.Certificate.spelling) owner self.old xs
            → MayFollow owner.term_length (entries xs) (entry (artifact.Finalization floor.now))
            → KeepsRecord K.Disk (artifact_spelling D.spelling S.Signature.spelling S.Certificate.spelling) owner self.new
            (xs ++ artifact.Finalization floor.now ∷ [])) }
        ensures recordable { OnOk result
            (Readable ⟦<Artifact<S, D> as Write>⟧.fits (⟦<Artifact<S, D> as Read>⟧.within members) (artifact.Finalization floor.now)) }
        ensures any_moment { (owner : Owner) (xs : List (Artifact S D S.PublicKey S.Signature S.Certificate))
            → KeepsRecord K.Disk (artifact_spelling D.spelling S.Signature.spelling S.Certificate.spelling) owner self.old xs
            → K.keeps
            → LeaveBook K.Disk (book_of self.old) (book_of self.new) (λ read.
            (read ≡ map (artifact_spelling D.spelling S.Signature.spelling S.Certificate.spelling) xs) ⊎
            (Readable ⟦<Artifact<S, D> as Write>⟧.fits (⟦<Artifact<S, D> as Read>⟧.within members) (artifact.Finalization floor.now)
            × (read ≡ map (artifact_spelling D.spelling S.Signature.spelling S.Certificate.spelling)
            (xs ++ artifact.Finalization floor.now ∷ [])))) }
        ensures faults { IfErr result (λ why. (why ≡ open_fault.Device) ⊎ (why ≡ open_fault.Memory)) }
        ensures device { IsErrOf result OpenFault.Device → HasFailed K.Disk (disks_of self.old) (disks_of self.new) }
        ensures no_device { IfErr result (λ why. why ≢ open_fault.Device → HasNotFailed K.Disk (disks_of self.old) (disks_of self.new)) }
        ensures no_fault { OnOk result (HasNotFailed K.Disk (disks_of self.old) (disks_of self.new)) }
    {
        a_ledger_at_rest_leaves_its_record::<S, D, K>();
        let Ok(copy) = floor.duplicate(alloc) else {
            return Err(OpenFault::Memory);
        };
        let artifact = Artifact::Finalization(copy);
        if artifact.encode_size() > LONGEST {
            return Err(OpenFault::Memory);
        }
        if !artifact.is_within(members) {
            return Err(OpenFault::Memory);
        }
        match self.record(artifact) {
            Ok(()) => Ok(()),
            Err(NodeFault::Device) => Err(OpenFault::Device),
            Err(NodeFault::Memory) => Err(OpenFault::Memory),
            // Only a journal that has failed tells so.
            Err(NodeFault::Failed) => unreachable!(),
        }
    }
}
