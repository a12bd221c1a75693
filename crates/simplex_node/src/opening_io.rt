//! Opening a node's record over a stream.

ghost use Rattle.std.specs.Prelude.{◌≡◌, ◌≢◌, false, Err, IfErr, IfOk, None, OnErr, OnOk, Some, ℕ};
ghost use Rattle.journal_single.specs.Disk.{counted};
ghost use Rattle.journal_books.specs.declared.disks.Disks.TheVariants.{One};
ghost use Rattle.journal_books.specs.Books.{are_two};
ghost use Rattle.simplex_member.specs.declared.action.Reply.{Reply};
ghost use Rattle.simplex_member.specs.declared.fault.IoFault.TheVariants as fault;
ghost use Rattle.simplex_member.specs.Setup.{brought_by, setup_of};
ghost use Rattle.node_steps.specs.Keeps.{disks_of};
ghost use Rattle.node_steps.specs.Opening.{HasOpened, IsOpenAndSettled, IsUnopened};
ghost use Rattle.simplex_node.specs.Running.{IsWritten};
ghost use Rattle.node_wire.specs.Streaming.{spelled};

use journal_books::Disks;
use journal_single::Disk;
use node_steps::Node;
use node_wire::{Sink, write_out};
use simplex_member::{Action, IoFault, OpenFault, Reply, Speaks};
use std::alloc::Global;
use std::rc::Rc;
use types_core::{Digest, Scheme};
use types_terms::Elector;
use voter_rules::Floor;
use voter_rules::config::Config;

/// Opens a member's record at a moment, in milliseconds, and writes what the opening hands out as the first reply. With the node,
/// how that write ended.
///
/// # Errors
///
/// Those of [`Node::open`], with the disk: then nothing was written. Beside the node [`IoFault::Memory`] where there is none for the
/// reply's bytes: then nothing was written, and [`IoFault::Write`] where a write or the flush failed: then a front of them was.
pub fn open_io<S: Scheme<D> + Drop, L: Elector<S, D>, D: Digest, K: Disk, W: Sink>(
    alloc: Global,
    config: Config<Floor<S, D>>,
    scheme: Rc<S>,
    elector: L,
    disk: K,
    now: u64,
    writer: &mut W,
) -> Result<(Node<S, L, D, K>, Result<(), IoFault>), (OpenFault, K)>
    requires { L.built_for elector (S.size scheme.value) }

    // What was found on the disk was gone through, the node stands behind it, and what that hands out is the first reply.
    ensures opened { IfOk result (λ r.
        (index : ℕ) × (first : Reply S D S.PublicKey S.Signature S.Certificate) × (S.own scheme.value ≡ Some index) × (first.refused ≡ None)
        × IsWritten (spelled S.PublicKey.spelling D.spelling S.Signature.spelling S.Certificate.spelling) first r.1 (W.contents writer.old)
        (W.contents writer.new) × IsOpenAndSettled S.Scheme L.Elector K.Disk (⟦<S as Speaks<D>>⟧.formats (S.size scheme.value))
        (setup_of S.Scheme L.Elector config scheme.value elector index) ⟦<S as Speaks<D>>⟧.readable (brought_by config.floor) (One disk) now r.0
        first.actions.items) }
    ensures no_memory { IfOk result (λ r. r.1 ≡ Err fault.Memory → writer.new ≡ writer.old) }
    ensures unwritten { OnErr result (writer.new ≡ writer.old) }

    // Writing failed exactly where that is told, and what was written is flushed.
    ensures write_failed { IfOk result (λ r. r.1 ≡ Err fault.Write → W.failed writer.new ≡ counted false (W.failed writer.old)) }
    ensures write { IfOk result (λ r. r.1 ≢ Err fault.Write → W.failed writer.new ≡ W.failed writer.old) }
    ensures flushed { IfOk result (λ r. OnOk r.1 (W.is_flushed writer.new)) }

    // Of its faults, and of a crash meanwhile, all that [`Node::open`] promises.
    ensures has_opened { IfOk result (λ r.
        HasOpened S.Scheme L.Elector K.Disk (⟦<S as Speaks<D>>⟧.formats (S.size scheme.value))
        (setup_of S.Scheme L.Elector config scheme.value elector) ⟦<S as Speaks<D>>⟧.readable config scheme.value (One disk) now
        (disks_of r.0)) }
    ensures unopened { IfErr result (λ r.
        IsUnopened S.Scheme L.Elector K.Disk (⟦<S as Speaks<D>>⟧.formats (S.size scheme.value))
        (setup_of S.Scheme L.Elector config scheme.value elector) ⟦<S as Speaks<D>>⟧.readable config scheme.value (One disk) now
        r.0 (One r.1)) }
    ensures over_one { IfOk result (λ r. are_two (disks_of r.0) ≡ false) }
{
    match open_disks_io(
        alloc,
        config,
        scheme,
        elector,
        Disks::One(disk),
        now,
        writer,
    ) {
        Ok(opened) => Ok(opened),
        Err((fault, disks)) => Err((fault, disks.one())),
    }
}

/// The same over one disk or two, in their order.
///
/// # Errors
///
/// Those of [`open_io`], with the disks.
pub fn open_disks_io<S: Scheme<D> + Drop, L: Elector<S, D>, D: Digest, K: Disk, W: Sink>(
    alloc: Global,
    config: Config<Floor<S, D>>,
    scheme: Rc<S>,
    elector: L,
    disks: Disks<K>,
    now: u64,
    writer: &mut W,
) -> Result<(Node<S, L, D, K>, Result<(), IoFault>), (OpenFault, Disks<K>)>
    requires { L.built_for elector (S.size scheme.value) }
    ensures opened { IfOk result (λ r.
        (index : ℕ) × (first : Reply S D S.PublicKey S.Signature S.Certificate) × (S.own scheme.value ≡ Some index) × (first.refused ≡ None)
        × IsWritten (spelled S.PublicKey.spelling D.spelling S.Signature.spelling S.Certificate.spelling) first r.1 (W.contents writer.old)
        (W.contents writer.new) × IsOpenAndSettled S.Scheme L.Elector K.Disk (⟦<S as Speaks<D>>⟧.formats (S.size scheme.value))
        (setup_of S.Scheme L.Elector config scheme.value elector index) ⟦<S as Speaks<D>>⟧.readable (brought_by config.floor) disks now r.0
        first.actions.items) }
    ensures no_memory { IfOk result (λ r. r.1 ≡ Err fault.Memory → writer.new ≡ writer.old) }
    ensures unwritten { OnErr result (writer.new ≡ writer.old) }

    // Writing failed exactly where that is told, and what was written is flushed.
    ensures write_failed { IfOk result (λ r. r.1 ≡ Err fault.Write → W.failed writer.new ≡ counted false (W.failed writer.old)) }
    ensures write { IfOk result (λ r. r.1 ≢ Err fault.Write → W.failed writer.new ≡ W.failed writer.old) }
    ensures flushed { IfOk result (λ r. OnOk r.1 (W.is_flushed writer.new)) }

    // Of its faults, and of a crash meanwhile, all that [`Node::open`] and [`Node::open_pair`] promise.
    ensures has_opened { IfOk result (λ r.
        HasOpened S.Scheme L.Elector K.Disk (⟦<S as Speaks<D>>⟧.formats (S.size scheme.value))
        (setup_of S.Scheme L.Elector config scheme.value elector) ⟦<S as Speaks<D>>⟧.readable config scheme.value disks now
        (disks_of r.0)) }
    ensures unopened { IfErr result (λ r.
        IsUnopened S.Scheme L.Elector K.Disk (⟦<S as Speaks<D>>⟧.formats (S.size scheme.value))
        (setup_of S.Scheme L.Elector config scheme.value elector) ⟦<S as Speaks<D>>⟧.readable config scheme.value disks now
        r.0 r.1) }
    ensures as_many { IfOk result (λ r. are_two (disks_of r.0) ≡ are_two disks) }
    ensures as_many_back { IfErr result (λ r. are_two r.1 ≡ are_two disks) }
{
    match open_on(alloc, config, scheme, elector, disks, now) {
        Ok((node, actions)) => {
            let first = Reply {
                refused: None,
                actions,
            };
            let written = write_out(alloc, &first, writer);
            Ok((node, written))
        }
        Err(refused) => Err(refused),
    }
}

/// Opens a member's record over one disk or two.
fn open_on<S: Scheme<D> + Drop, L: Elector<S, D>, D: Digest, K: Disk>(
    alloc: Global,
    config: Config<Floor<S, D>>,
    scheme: Rc<S>,
    elector: L,
    disks: Disks<K>,
    now: u64,
) -> Result<(Node<S, L, D, K>, Vec<Action<S, D>>), (OpenFault, Disks<K>)>
    requires { L.built_for elector (S.size scheme.value) }
    ensures opened { IfOk result (λ r.
        (index : ℕ) × (S.own scheme.value ≡ Some index) × IsOpenAndSettled S.Scheme L.Elector K.Disk
        (⟦<S as Speaks<D>>⟧.formats (S.size scheme.value)) (setup_of S.Scheme L.Elector config scheme.value elector index)
        ⟦<S as Speaks<D>>⟧.readable (brought_by config.floor) disks now r.0 r.1.items) }
    ensures has_opened { IfOk result (λ r.
        HasOpened S.Scheme L.Elector K.Disk (⟦<S as Speaks<D>>⟧.formats (S.size scheme.value))
        (setup_of S.Scheme L.Elector config scheme.value elector) ⟦<S as Speaks<D>>⟧.readable config scheme.value disks now
        (disks_of r.0)) }
    ensures unopened { IfErr result (λ r.
        IsUnopened S.Scheme L.Elector K.Disk (⟦<S as Speaks<D>>⟧.formats (S.size scheme.value))
        (setup_of S.Scheme L.Elector config scheme.value elector) ⟦<S as Speaks<D>>⟧.readable config scheme.value disks now
        r.0 r.1) }
    ensures as_many { IfOk result (λ r. are_two (disks_of r.0) ≡ are_two disks) }
    ensures as_many_back { IfErr result (λ r. are_two r.1 ≡ are_two disks) }
{
    match disks {
        Disks::One(disk) => match Node::open(alloc, config, scheme, elector, disk, now) {
            Ok(opened) => Ok(opened),
            Err((fault, disk)) => Err((fault, Disks::One(disk))),
        },
        Disks::Two(first, second) => {
            match Node::open_pair(alloc, config, scheme, elector, first, second, now) {
                Ok(opened) => Ok(opened),
                Err((fault, first, second)) => Err((fault, Disks::Two(first, second))),
            }
        }
    }
}
