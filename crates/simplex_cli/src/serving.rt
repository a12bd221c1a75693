//! A node over a record and streams.

ghost use Rattle.std.specs.Prelude.{◌≡◌, ◌⊎◌, ℕ, false, true, Err, IfErr, OnOk, Result, Some, is_ok, ⊤};
ghost use Rattle.journal_single.specs.Disk.{counted};
ghost use Rattle.journal_books.specs.Books.{Leave, are_two};
ghost use Rattle.simplex_member.specs.declared.fault.IoFault.{IoFault};
ghost use Rattle.simplex_member.specs.declared.fault.NodeFault.{NodeFault};
ghost use Rattle.simplex_member.specs.declared.fault.OpenFault.{OpenFault};
ghost use Rattle.simplex_member.specs.Member.{NoneDue};
ghost use Rattle.simplex_member.specs.Point.{History};
ghost use Rattle.simplex_member.specs.Setup.{brought_by, setup_of};
ghost use Rattle.node_core.specs.Rewriting.{IsLeftByRewrite};
ghost use Rattle.node_steps.specs.Keeps.{AtOwn, NodeKeeps, disks_of, has_failed};
ghost use Rattle.node_steps.specs.Opening.{IsUnopened};
ghost use Rattle.simplex_cli.specs.declared.ending.Ending.TheVariants.{Open, Step};
ghost use Rattle.simplex_cli.specs.Rewriting.{MayBeRewritten};
ghost use Rattle.simplex_cli.specs.Serving.{AreTold, EndsAs, ServesOn, ServesOver};
ghost use Rattle.node_wire.specs.Streaming.{spelled};

use crate::ending::Ending;
use journal_single::Disk;
use node_steps::Node;
use node_wire::{Sink, Source};
use simplex_member::{IoFault, Speaks};
use simplex_node::{Disks, open_disks_io, run_io};
use std::alloc::Global;
use std::rc::Rc;
use types_core::{Digest, Scheme};
use types_terms::Elector;
use voter_rules::Floor;
use voter_rules::config::Config;

/// Opens a member's record over one disk or two at a moment, in milliseconds, writes what the opening hands out as a reply, and then
/// answers the events of the input. Where all of it was answered and the disks are two, the record is rewritten. With the disks.
///
/// # Errors
///
/// [`Ending::Open`] where the record was not opened: then nothing was written. Else the ending of what [`open_disks_io`] or
/// [`run_io`] answered, or [`Ending::Step`] where the rewrite failed.
pub fn serve_over<S: Scheme<D> + Drop, L: Elector<S, D>, D: Digest, K: Disk, R: Source, W: Sink>(
    alloc: Global,
    config: Config<Floor<S, D>>,
    scheme: Rc<S>,
    elector: L,
    disks: Disks<K>,
    now: u64,
    input: &mut R,
    output: &mut W,
) -> (Result<(), Ending>, Disks<K>)
    requires { L.built_for elector (S.size scheme.value) }
    ensures streams { AreTold result.0 (R.failed input.old) (R.failed input.new) (W.failed output.old) (W.failed output.new)
        (W.is_flushed output.old) (W.is_flushed output.new) }
    ensures serves { ((why : OpenFault) × (result.0 ≡ Err (Open why)) × (output.new ≡ output.old) × IsUnopened S.Scheme L.Elector K.Disk
        (⟦<S as Speaks<D>>⟧.formats (S.size scheme.value)) (setup_of S.Scheme L.Elector config scheme.value elector)
        ⟦<S as Speaks<D>>⟧.readable config scheme.value disks now why result.1) ⊎ ((ended : Result ⊤ IoFault) × (index : ℕ) ×
        EndsAs ended (are_two disks) result.0 × (S.own scheme.value ≡ Some index) × ServesOver S.Scheme K.Disk
        (⟦<S as Speaks<D>>⟧.formats (S.size scheme.value)) (setup_of S.Scheme L.Elector config scheme.value elector index) D.fits D.spelling
        (spelled S.PublicKey.spelling D.spelling S.Signature.spelling S.Certificate.spelling) (D.reading 65535) ⟦<S as Speaks<D>>⟧.readable
        (brought_by config.floor) disks result.1 now (R.failed input.new ≡ counted false (R.failed input.old)) ended (R.remaining input.old)
        (W.contents output.old) (W.contents output.new)) }
    ensures as_many { are_two result.1 ≡ are_two disks }
{
    match open_disks_io(alloc, config, scheme, elector, disks, now, output) {
        Ok((node, written)) => match written {
            Ok(()) => serve(alloc, node, input, output),
            Err(fault) => (Err(Ending::of(fault)), node.into_disks()),
        },
        Err((fault, disks)) => (Err(Ending::Open(fault)), disks),
    }
}

/// Answers the events of the input, and rewrites the record behind all of it. With the disks.
fn serve<S: Scheme<D> + Drop, L: Elector<S, D>, D: Digest, K: Disk, R: Source, W: Sink>(
    alloc: Global,
    node: Node<S, L, D, K>,
    input: &mut R,
    output: &mut W,
) -> (Result<(), Ending>, Disks<K>)
    ensures streams { AreTold result.0 (R.failed input.old) (R.failed input.new) (W.failed output.old) (W.failed output.new)
        (W.is_flushed output.old) (W.is_flushed output.new) }
    ensures serves { AtOwn S.Scheme L.Elector K.Disk ⟦<S as Speaks<D>>⟧.formats node (λ f s h.
        NoneDue S.Scheme f s h → (ended : Result ⊤ IoFault) × EndsAs ended (are_two (disks_of node)) result.0 × ServesOn S.Scheme K.Disk f s
        result.1 D.fits D.spelling (spelled S.PublicKey.spelling D.spelling S.Signature.spelling S.Certificate.spelling) (D.reading 65535) h
        (R.failed input.new ≡ counted false (R.failed input.old)) ended (R.remaining input.old) (W.contents output.old)
        (W.contents output.new)) }
    ensures as_many { are_two result.1 ≡ are_two (disks_of node) }
{
    let mut node = node;
    let ran = run_io(alloc, &mut node, input, output);
    let ended = finish(&mut node, ran);
    (ended, node.into_disks())
}

/// How a program ends whose run over streams came to this: behind a whole input it rewrites the record.
fn finish<S: Scheme<D> + Drop, L: Elector<S, D>, D: Digest, K: Disk>(
    node: &mut Node<S, L, D, K>,
    ran: Result<(), IoFault>,
) -> Result<(), Ending>
    ensures ends { EndsAs ran true result }
    ensures over_one { OnOk ran (has_failed node.old ≡ false)
        → are_two (disks_of node.old) ≡ false
        → EndsAs ran false result × (node.new ≡ node.old) }
    ensures broken_off { IfErr ran (λ _. node.new ≡ node.old) }
    ensures any_moment { OnOk ran (AtOwn S.Scheme L.Elector K.Disk ⟦<S as Speaks<D>>⟧.formats node.old (λ f s h.
        NoneDue S.Scheme f s h
        → K.keeps
        → Leave K.Disk (disks_of node.old) (disks_of node.new) (IsLeftByRewrite S.Scheme f s h))) }
    ensures as_many { are_two (disks_of node.new) ≡ are_two (disks_of node.old) }
{
    match ran {
        Ok(()) => shorten(node),
        Err(fault) => Err(Ending::of(fault)),
    }
}

/// Rewrites the record, where it stands on two disks.
pub(crate) fn shorten<S: Scheme<D> + Drop, L: Elector<S, D>, D: Digest, K: Disk>(
    node: &mut Node<S, L, D, K>,
) -> Result<(), Ending>
    ensures fault { IfErr result (λ why. (fault : NodeFault) × (why ≡ Step fault)) }
    ensures rewritten { OnOk result (AtOwn S.Scheme L.Elector K.Disk ⟦<S as Speaks<D>>⟧.formats node.old (λ f s h.
        NoneDue S.Scheme f s h
        → (end : History S D S.PublicKey S.Signature S.Certificate) × MayBeRewritten S.Scheme f s h end
        × NodeKeeps S.Scheme L.Elector K.Disk f s node.new end)) }
    ensures over_one { has_failed node.old ≡ false
        → are_two (disks_of node.old) ≡ false
        → (is_ok result ≡ true) × (node.new ≡ node.old) }
    ensures any_moment { AtOwn S.Scheme L.Elector K.Disk ⟦<S as Speaks<D>>⟧.formats node.old (λ f s h.
        NoneDue S.Scheme f s h
        → K.keeps
        → Leave K.Disk (disks_of node.old) (disks_of node.new) (IsLeftByRewrite S.Scheme f s h)) }
    ensures as_many { are_two (disks_of node.new) ≡ are_two (disks_of node.old) }
{
    match node.rewrite() {
        Ok(_) => Ok(()),
        Err(fault) => Err(Ending::Step(fault)),
    }
}
