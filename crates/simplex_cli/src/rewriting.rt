//! A node over a record and streams, whose record is rewritten while it runs.

ghost use Rattle.std.specs.Prelude.{◌≡◌, ◌⊎◌, ℕ, false, Err, Result, Some};
ghost use Rattle.journal_single.specs.Disk.{counted};
ghost use Rattle.journal_books.specs.Books.{are_two};
ghost use Rattle.simplex_member.specs.declared.fault.IoFault.{IoFault};
ghost use Rattle.simplex_member.specs.declared.fault.OpenFault.{OpenFault};
ghost use Rattle.simplex_member.specs.Member.{NoneDue};
ghost use Rattle.simplex_member.specs.Setup.{brought_by, setup_of};
ghost use Rattle.node_steps.specs.Keeps.{AtOwn, disks_of};
ghost use Rattle.node_steps.specs.Opening.{IsUnopened};
ghost use Rattle.node_wire.specs.declared.stretch.Stretch.{Stretch};
ghost use Rattle.node_wire.specs.Streaming.{spelled};
ghost use Rattle.simplex_cli.specs.declared.ending.Ending.TheVariants.{Open};
ghost use Rattle.simplex_cli.specs.Rewriting.{EndsAmong, ServesAmong, ServesRewriting};
ghost use Rattle.simplex_cli.specs.Serving.{AreTold};

use crate::ending::Ending;
use crate::serving::shorten;
use journal_single::Disk;
use node_steps::Node;
use node_wire::{EventInput, Sink, Source, Stretch};
use simplex_member::Speaks;
use simplex_node::{Disks, open_disks_io, run_some_io};
use std::alloc::Global;
use std::rc::Rc;
use types_core::{Digest, Scheme, View};
use types_terms::Elector;
use voter_rules::Floor;
use voter_rules::config::Config;

/// Opens a member's record over one disk or two at a moment, in milliseconds, writes what the opening hands out as a reply, and then
/// answers the events of the input. Whenever so many views more are final, and where all of the input was answered, the record of two
/// disks is rewritten. With the disks.
///
/// # Errors
///
/// Those of [`serve_over`](crate::serve_over): [`Ending::Step`] also where a rewrite failed before the end of the input, behind the
/// answers to all events before it.
pub fn serve_rewriting<
    S: Scheme<D> + Drop,
    L: Elector<S, D>,
    D: Digest,
    K: Disk,
    R: Source,
    W: Sink,
>(
    alloc: Global,
    config: Config<Floor<S, D>>,
    scheme: Rc<S>,
    elector: L,
    disks: Disks<K>,
    now: u64,
    views: u64,
    input: &mut R,
    output: &mut W,
) -> (Result<(), Ending>, Disks<K>)
    requires { L.built_for elector (S.size scheme.value) }
    ensures streams { AreTold result.0 (R.failed input.old) (R.failed input.new) (W.failed output.old) (W.failed output.new)
        (W.is_flushed output.old) (W.is_flushed output.new) }
    ensures serves { ((why : OpenFault) × (result.0 ≡ Err (Open why)) × (output.new ≡ output.old) × IsUnopened S.Scheme L.Elector K.Disk
        (⟦<S as Speaks<D>>⟧.formats (S.size scheme.value)) (setup_of S.Scheme L.Elector config scheme.value elector)
        ⟦<S as Speaks<D>>⟧.readable config scheme.value disks now why result.1) ⊎ ((io : Result Stretch IoFault) × (index : ℕ) ×
        EndsAmong io (are_two disks) result.0 × (S.own scheme.value ≡ Some index) × ServesRewriting S.Scheme K.Disk
        (⟦<S as Speaks<D>>⟧.formats (S.size scheme.value)) (setup_of S.Scheme L.Elector config scheme.value elector index) D.fits D.spelling
        (spelled S.PublicKey.spelling D.spelling S.Signature.spelling S.Certificate.spelling) (D.reading 65535) views ⟦<S as Speaks<D>>⟧.readable
        (brought_by config.floor) disks result.1 now (R.failed input.new ≡ counted false (R.failed input.old)) io (R.remaining input.old)
        (W.contents output.old) (W.contents output.new)) }
    ensures as_many { are_two result.1 ≡ are_two disks }
{
    match open_disks_io(alloc, config, scheme, elector, disks, now, output) {
        Ok((node, written)) => match written {
            Ok(()) => serve(alloc, node, views, input, output),
            Err(fault) => (Err(Ending::of(fault)), node.into_disks()),
        },
        Err((fault, disks)) => (Err(Ending::Open(fault)), disks),
    }
}

/// Answers the events of the input, and rewrites the record whenever so many views more are final, and behind all of it. With the disks.
fn serve<S: Scheme<D> + Drop, L: Elector<S, D>, D: Digest, K: Disk, R: Source, W: Sink>(
    alloc: Global,
    node: Node<S, L, D, K>,
    views: u64,
    input: &mut R,
    output: &mut W,
) -> (Result<(), Ending>, Disks<K>)
    ensures streams { AreTold result.0 (R.failed input.old) (R.failed input.new) (W.failed output.old) (W.failed output.new)
        (W.is_flushed output.old) (W.is_flushed output.new) }
    ensures serves { AtOwn S.Scheme L.Elector K.Disk ⟦<S as Speaks<D>>⟧.formats node (λ f s h.
        NoneDue S.Scheme f s h → (io : Result Stretch IoFault) × EndsAmong io (are_two (disks_of node)) result.0 × ServesAmong S.Scheme K.Disk
        f s views result.1 D.fits D.spelling (spelled S.PublicKey.spelling D.spelling S.Signature.spelling S.Certificate.spelling)
        (D.reading 65535) h (R.failed input.new ≡ counted false (R.failed input.old)) io (R.remaining input.old) (W.contents output.old)
        (W.contents output.new)) }
    ensures as_many { are_two result.1 ≡ are_two (disks_of node) }
{
    let mut node = node;
    let mut events = EventInput::new(alloc);
    loop {
        let view = View::new(node.last_finalized().get().saturating_add(views));
        match run_some_io(alloc, &mut node, &mut events, input, output, view) {
            Ok(Stretch::Paused) => {
                if let Err(ending) = shorten(&mut node) {
                    return (Err(ending), node.into_disks());
                }
            }
            Ok(Stretch::Ended) => {
                let ended = shorten(&mut node);
                return (ended, node.into_disks());
            }
            Err(fault) => return (Err(Ending::of(fault)), node.into_disks()),
        }
    }
}
