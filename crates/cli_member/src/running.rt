//! A member over one disk or two and over streams, set up by its settings.

ghost use Rattle.std.specs.Prelude.{◌≡◌, ◌⊎◌, IfErr, Result, false, ⊤};
ghost use Rattle.journal_single.specs.Disk.{counted};
ghost use Rattle.journal_books.specs.declared.disks.Disks.TheVariants.{One, Two};
ghost use Rattle.journal_books.specs.Books.{are_two};
ghost use Rattle.types_codec.specs.Front.{AppendsFront};
ghost use Rattle.node_wire.specs.Streaming.{spelled};
ghost use Rattle.cli_settings.specs.Building.{config_of};
ghost use Rattle.cli_opening.specs.Members.{committee_of};
ghost use Rattle.cli_settings.specs.Checking.{IsGood};
ghost use Rattle.cli_opening.specs.declared.looking.Barred.{Barred};
ghost use Rattle.cli_member.specs.Members.{IsLeft, IsRun, MemberComesTo};
ghost use Rattle.simplex_cli.specs.declared.ending.Ending.{Ending};
ghost use Rattle.simplex_cli.specs.Ending.{ending_line, memory_line};
ghost use Rattle.simplex_cli.specs.Serving.{AreTold, status_of};
ghost use Rattle.simplex_member.specs.Setup.{setup_of};

use crate::looking::{ASKED, look_for};
use cli_opening::say_found;
use cli_record::left;
use cli_settings::Settings;
use journal_books::Disks;
use journal_single::Disk;
use node_wire::{Sink, Source};
use simplex_cli::{Ending, serve_over, serve_rewriting, tell};
use simplex_member::Speaks;
use simplex_types::{AttestationList, PlainKey, PlainScheme, PlainSignature};
use std::alloc::Global;
use std::io::Write as Writes;
use types_core::{Read, Scheme, Sha256Digest, Write};
use types_terms::elector::{Elector, RoundRobinElector};

/// Runs the member of these settings over one disk or two: opens its record at moment 0, writes what the opening hands out as a reply,
/// then answers the events of `input` on `output`. At the end of the input between two events the record of two disks is rewritten, and
/// before that whenever as many views more are final as the settings say, if they do. How that ended, with the disks.
pub fn drive_member<K: Disk, R: Source, W: Sink>(
    alloc: Global,
    settings: &Settings,
    disks: Disks<K>,
    input: &mut R,
    output: &mut W,
) -> (Result<(), Ending>, Disks<K>)
    requires { IsGood settings.now }
    ensures streams { AreTold result.0 (R.failed input.old) (R.failed input.new) (W.failed output.old) (W.failed output.new)
        (W.is_flushed output.old) (W.is_flushed output.new) }
    ensures comes_to { MemberComesTo ⟦<PlainScheme as Scheme<Sha256Digest>>⟧ K.Disk
        (⟦<PlainScheme as Speaks<Sha256Digest>>⟧.formats settings.now.committee.members)
        (λ leaders. setup_of ⟦<PlainScheme as Scheme<Sha256Digest>>⟧ ⟦<RoundRobinElector as Elector<PlainScheme, Sha256Digest>>⟧
        (config_of settings.now) (committee_of settings.now) leaders settings.now.member)
        ⟦<Sha256Digest as Write>⟧.fits ⟦<Sha256Digest as Write>⟧.spelling
        (spelled ⟦<PlainKey as Write>⟧.spelling ⟦<Sha256Digest as Write>⟧.spelling ⟦<PlainSignature as Write>⟧.spelling
        ⟦<AttestationList<PlainSignature> as Write>⟧.spelling) (⟦<Sha256Digest as Read>⟧.reading 65535) settings.now.conduct.rewrite_views settings.now.committee
        ⟦<PlainScheme as Speaks<Sha256Digest>>⟧.readable disks result.1 0 (R.failed input.new ≡ counted false (R.failed input.old))
        (output.new ≡ output.old) result.0 (R.remaining input.old) (W.contents output.old) (W.contents output.new) }
    ensures as_many { are_two result.1 ≡ are_two disks }
{
    let Ok(scheme) = settings.scheme(alloc) else {
        return (Err(Ending::Memory), disks);
    };
    let Ok(elector) = settings.committee.elector(alloc) else {
        return (Err(Ending::Memory), disks);
    };
    let config = settings.config();
    let views = settings.conduct.rewrite_views;
    if views == 0 {
        return serve_over(alloc, config, scheme, elector, disks, 0, input, output);
    }
    serve_rewriting(
        alloc, config, scheme, elector, disks, 0, views, input, output,
    )
}

/// Runs the member of these settings over two disks, as [`drive_member`] does. The status, with the disks: 0 at the end of the input
/// between two events, 3 where a place was named at which none stands, and 1 where something failed, each but 0 with a line on `faults`.
pub fn pair_over<K: Disk, R: Source, W: Sink, F: Writes>(
    alloc: Global,
    settings: &Settings,
    first: K,
    second: K,
    input: &mut R,
    output: &mut W,
    faults: &mut F,
) -> (u8, Disks<K>)
    requires { IsGood settings.now }
    ensures statuses { (result.0 ≡ 0) ⊎ ((result.0 ≡ 1) ⊎ (result.0 ≡ 3)) }
    ensures silent { result.0 ≡ 0 → faults.new ≡ faults.old }

    // How it ended gives the status and the line, and says what was read and written.
    ensures comes_to { (ended : Result ⊤ Ending) × (result.0 ≡ status_of ended) × IfErr ended (λ why.
        AppendsFront (F.contents faults.old) (F.contents faults.new) (ending_line why) ⊎ AppendsFront (F.contents faults.old)
        (F.contents faults.new) memory_line) × AreTold ended (R.failed input.old) (R.failed input.new) (W.failed output.old)
        (W.failed output.new) (W.is_flushed output.old) (W.is_flushed output.new)
        × MemberComesTo ⟦<PlainScheme as Scheme<Sha256Digest>>⟧ K.Disk
        (⟦<PlainScheme as Speaks<Sha256Digest>>⟧.formats settings.now.committee.members)
        (λ leaders. setup_of ⟦<PlainScheme as Scheme<Sha256Digest>>⟧ ⟦<RoundRobinElector as Elector<PlainScheme, Sha256Digest>>⟧
        (config_of settings.now) (committee_of settings.now) leaders settings.now.member)
        ⟦<Sha256Digest as Write>⟧.fits ⟦<Sha256Digest as Write>⟧.spelling
        (spelled ⟦<PlainKey as Write>⟧.spelling ⟦<Sha256Digest as Write>⟧.spelling ⟦<PlainSignature as Write>⟧.spelling
        ⟦<AttestationList<PlainSignature> as Write>⟧.spelling) (⟦<Sha256Digest as Read>⟧.reading 65535) settings.now.conduct.rewrite_views settings.now.committee
        ⟦<PlainScheme as Speaks<Sha256Digest>>⟧.readable (Two first second) result.1 0
        (R.failed input.new ≡ counted false (R.failed input.old)) (output.new ≡ output.old) ended (R.remaining input.old)
        (W.contents output.old) (W.contents output.new) }
{
    let (ended, disks) = drive_member(alloc, settings, Disks::Two(first, second), input, output);
    (tell(alloc, ended, faults), disks)
}

/// Looks at what a disk holds and says it on `faults`, and then runs the member of these settings over it, as [`drive_member`] does. The
/// status, with the disk: 0 at the end of the input between two events, 3 where a place was named at which none stands, and 1 where
/// something failed, each but 0 with a line on `faults`. What can't be this member's record, and where not `cuts` also what a crash
/// doesn't leave, stays as it is, with words of why on `faults` and status 1. The disk is said to be the file at this path.
pub fn member_over<K: Disk, R: Source, W: Sink, F: Writes>(
    alloc: Global,
    settings: &Settings,
    path: &str,
    cuts: bool,
    disk: K,
    input: &mut R,
    output: &mut W,
    faults: &mut F,
) -> (u8, K)
    requires { IsGood settings.now }
    ensures statuses { (result.0 ≡ 0) ⊎ ((result.0 ≡ 1) ⊎ (result.0 ≡ 3)) }

    // Either it was left as it is, and nothing was read or written, or it was found to be a record of the member, which then ran over it.
    ensures comes_to { ((why : Barred) × (result.0 ≡ 1)
        × IsLeft K.Disk settings.now cuts disk result.1 why path.now (F.contents faults.old) (F.contents faults.new)
        × (input.new ≡ input.old) × (output.new ≡ output.old))
        ⊎ ((on : K) × (ended : Result ⊤ Ending) × (result.0 ≡ status_of ended)
        × IsRun K.Disk settings.now cuts disk on ended path.now (F.contents faults.old) (F.contents faults.new)
        × AreTold ended (R.failed input.old) (R.failed input.new) (W.failed output.old) (W.failed output.new)
        (W.is_flushed output.old) (W.is_flushed output.new)
        × MemberComesTo ⟦<PlainScheme as Scheme<Sha256Digest>>⟧ K.Disk
        (⟦<PlainScheme as Speaks<Sha256Digest>>⟧.formats settings.now.committee.members)
        (λ leaders. setup_of ⟦<PlainScheme as Scheme<Sha256Digest>>⟧ ⟦<RoundRobinElector as Elector<PlainScheme, Sha256Digest>>⟧
        (config_of settings.now) (committee_of settings.now) leaders settings.now.member)
        ⟦<Sha256Digest as Write>⟧.fits ⟦<Sha256Digest as Write>⟧.spelling
        (spelled ⟦<PlainKey as Write>⟧.spelling ⟦<Sha256Digest as Write>⟧.spelling ⟦<PlainSignature as Write>⟧.spelling
        ⟦<AttestationList<PlainSignature> as Write>⟧.spelling) (⟦<Sha256Digest as Read>⟧.reading 65535) settings.now.conduct.rewrite_views settings.now.committee
        ⟦<PlainScheme as Speaks<Sha256Digest>>⟧.readable (One on) (One result.1) 0 (R.failed input.new ≡ counted false (R.failed input.old))
        (output.new ≡ output.old) ended (R.remaining input.old) (W.contents output.old) (W.contents output.new)) }
{
    let mut disk = disk;
    let found = match look_for(alloc, settings, cuts, &mut disk) {
        Ok(found) => found,
        Err(barred) => return (left(alloc, path, ASKED, barred, faults), disk),
    };
    say_found(alloc, path, found, faults);
    let (ended, disks) = drive_member(alloc, settings, Disks::One(disk), input, output);
    (tell(alloc, ended, faults), disks.one())
}
