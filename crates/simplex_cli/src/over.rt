//! A node over one disk or two and over streams, as the program sets it up.

ghost use Rattle.std.specs.Prelude.{◌≡◌, ◌⊎◌, ◌<◌, false, IfErr, Result, ⊤};
ghost use Rattle.journal_single.specs.Disk.{counted};
ghost use Rattle.journal_books.specs.declared.disks.Disks.{Disks};
ghost use Rattle.simplex_member.specs.Setup.{setup_of};
ghost use Rattle.node_wire.specs.Streaming.{spelled};
ghost use Rattle.simplex_cli.specs.declared.ending.Ending.{Ending};
ghost use Rattle.simplex_cli.specs.Ending.{ending_line, memory_line};
ghost use Rattle.simplex_cli.specs.Serving.{AreTold, ComesTo, status_of};
ghost use Rattle.simplex_cli.specs.Settings.{program_committee, program_config, program_rotation};
ghost use Rattle.types_codec.specs.Front.{AppendsFront};

use crate::ending::Ending;
use crate::serving::serve_over;
use crate::settings::{config, elector, scheme};
use crate::telling::tell;
use journal_single::Disk;
use node_wire::{Sink, Source};
use simplex_member::Speaks;
use simplex_node::Disks;
use simplex_types::{AttestationList, PlainKey, PlainScheme, PlainSignature};
use std::alloc::Global;
use std::io::Write as Writes;
use types_core::{Read, Scheme, Sha256Digest, Write};
use types_terms::elector::{Elector, RoundRobinElector};

/// Runs the member of this index, of so many, over one disk or two: opens its record at moment 0, writes what the opening hands out
/// as a reply, then answers the events of `input` on `output`. At the end of the input between two events the record of two disks is
/// rewritten. Answers the status: 0 at that end, 3 where a place was named at which no event stands, and 1 where something failed, each
/// but 0 with a line on `faults`.
pub fn node_over<K: Disk, R: Source, W: Sink, F: Writes>(
    alloc: Global,
    disks: Disks<K>,
    index: u16,
    count: u16,
    input: &mut R,
    output: &mut W,
    faults: &mut F,
) -> u8
    requires { index < count }
    ensures statuses { (result ≡ 0) ⊎ ((result ≡ 1) ⊎ (result ≡ 3)) }
    ensures silent { result ≡ 0 → faults.new ≡ faults.old }

    // How it ended gives the status and the line, and says what was read and written.
    ensures comes_to { (ended : Result ⊤ Ending) × (left : Disks K) × (result ≡ status_of ended) × IfErr ended (λ why.
        AppendsFront (F.contents faults.old) (F.contents faults.new) (ending_line why) ⊎ AppendsFront (F.contents faults.old)
        (F.contents faults.new) memory_line) × AreTold ended (R.failed input.old) (R.failed input.new) (W.failed output.old)
        (W.failed output.new) (W.is_flushed output.old) (W.is_flushed output.new) ×
        ComesTo ⟦<PlainScheme as Scheme<Sha256Digest>>⟧ K.Disk (⟦<PlainScheme as Speaks<Sha256Digest>>⟧.formats count)
        (setup_of ⟦<PlainScheme as Scheme<Sha256Digest>>⟧ ⟦<RoundRobinElector as Elector<PlainScheme, Sha256Digest>>⟧ program_config
        (program_committee index count) (program_rotation count) index) ⟦<Sha256Digest as Write>⟧.fits ⟦<Sha256Digest as Write>⟧.spelling
        (spelled ⟦<PlainKey as Write>⟧.spelling ⟦<Sha256Digest as Write>⟧.spelling ⟦<PlainSignature as Write>⟧.spelling
        ⟦<AttestationList<PlainSignature> as Write>⟧.spelling) (⟦<Sha256Digest as Read>⟧.reading 65535)
        ⟦<PlainScheme as Speaks<Sha256Digest>>⟧.readable disks left 0 (R.failed input.new ≡ counted false (R.failed input.old))
        (output.new ≡ output.old) ended (R.remaining input.old) (W.contents output.old) (W.contents output.new) }
{
    let (ended, disks) = drive(alloc, disks, index, count, input, output);
    drop(disks);
    tell(alloc, ended, faults)
}

/// The same without a word of how it ended, which it hands back with the disks.
pub fn drive<K: Disk, R: Source, W: Sink>(
    alloc: Global,
    disks: Disks<K>,
    index: u16,
    count: u16,
    input: &mut R,
    output: &mut W,
) -> (Result<(), Ending>, Disks<K>)
    requires { index < count }
    ensures streams { AreTold result.0 (R.failed input.old) (R.failed input.new) (W.failed output.old) (W.failed output.new)
        (W.is_flushed output.old) (W.is_flushed output.new) }
    ensures comes_to { ComesTo ⟦<PlainScheme as Scheme<Sha256Digest>>⟧ K.Disk (⟦<PlainScheme as Speaks<Sha256Digest>>⟧.formats count)
        (setup_of ⟦<PlainScheme as Scheme<Sha256Digest>>⟧ ⟦<RoundRobinElector as Elector<PlainScheme, Sha256Digest>>⟧ program_config
        (program_committee index count) (program_rotation count) index) ⟦<Sha256Digest as Write>⟧.fits ⟦<Sha256Digest as Write>⟧.spelling
        (spelled ⟦<PlainKey as Write>⟧.spelling ⟦<Sha256Digest as Write>⟧.spelling ⟦<PlainSignature as Write>⟧.spelling
        ⟦<AttestationList<PlainSignature> as Write>⟧.spelling) (⟦<Sha256Digest as Read>⟧.reading 65535)
        ⟦<PlainScheme as Speaks<Sha256Digest>>⟧.readable disks result.1 0 (R.failed input.new ≡ counted false (R.failed input.old))
        (output.new ≡ output.old) result.0 (R.remaining input.old) (W.contents output.old) (W.contents output.new) }
{
    let Ok(scheme) = scheme(alloc, index, count) else {
        return (Err(Ending::Memory), disks);
    };
    let Ok(elector) = elector(alloc, count) else {
        return (Err(Ending::Memory), disks);
    };
    serve_over(alloc, config(), scheme, elector, disks, 0, input, output)
}
