//! A member's lives: its record is opened again and again, on one disk.

ghost use Rattle.std.specs.Prelude.{◌≡◌, ◌⊎◌, false, All, IfErr, IfOk, [], ◌∷◌, length};
ghost use Rattle.journal_single.specs.Disk.{LeavesOnly, tallied};
ghost use Rattle.journal_books.specs.declared.disks.Disks.TheVariants.{One};
ghost use Rattle.journal_books.specs.Books.{are_two};
ghost use Rattle.node_steps.specs.Keeps.{AtOwn, disks_of};
ghost use Rattle.simplex_node.specs.Living.{IsLeftByTurns, MayLeaveOnly, OnImage, OverLives, failures_behind, spares_disk, tells_none, tried};
ghost use Rattle.simplex_node.specs.Running.{IsPassed};

use crate::running::run;
use journal_single::{Disk, a_disk_reads_as_one_record};
use messages_certificates::Artifact;
use node_steps::Node;
use node_wire::Answers;
use simplex_member::{
    Action, Event, NodeFault, OpenFault, Speaks, never_contradicts, never_foreign,
};
use std::alloc::{AllocError, Global};
use std::rc::Rc;
use types_core::{Digest, Scheme};
use types_terms::Elector;
use voter_rules::Floor;
use voter_rules::config::Config;

/// What a member's record is opened with, and the events that its node is handed then.
#[derive(Drop)]
pub struct Opening<S: Scheme<D> + Drop, L: Drop, D: Digest> {
    /// How the node is set up, and what it starts from.
    pub config: Config<Floor<S, D>>,
    /// The member's scheme.
    pub scheme: Rc<S>,
    /// Who leads.
    pub elector: L,
    /// The moment of the opening, in milliseconds.
    pub now: u64,
    /// What it is handed, one after another.
    pub events: Vec<Event<D>>,
}

/// What an opening answered, and the steps behind it.
#[derive(Drop)]
pub enum Answered<S: Scheme<D>, D: Digest> {
    /// The record was opened: its first actions, and the answers to the events. Where a fault is told, it ended before all were
    /// answered.
    Opened(Vec<Action<S, D>>, Answers<S, D>),
    /// It was not opened, and no event was handed in.
    NotOpened(OpenFault),
}

/// A member's lives, one after another: its record is opened, the node steps over the events, and the disk is opened anew. A step
/// that fails ends its life, and an opening that fails begins none. Hands back what each opening answered, and the disk.
///
/// Over what lives of the member model left, each opening that answered is a life of that model, set up by it, with the finalization
/// that it brings, at its moment and with its events, and its actions and replies are those that the model has of that life. One that
/// failed did so for its arguments, the first that is wrong; or memory ran out or the disk failed, and it may have been cut off behind
/// the reading. What the disk holds then is what these lives have left.
///
/// A crash at any moment leaves what lives behind some of these openings have left, in their order. So another call over what a
/// crash left goes on where that stood, and what the model's laws say of lives holds of every run of nodes over one disk.
///
/// # Errors
///
/// `AllocError` where there is no memory for the answers: then nothing was opened. With the disk.
pub fn live<S: Scheme<D> + Drop, L: Elector<S, D>, D: Digest, K: Disk>(
    alloc: Global,
    disk: K,
    openings: Vec<Opening<S, L, D>>,
) -> Result<(Vec<Answered<S, D>>, K), (AllocError, K)>
    requires { All (λ o. L.built_for o.elector (S.size o.scheme.value)) openings.items }
    ensures each { IfOk result (λ r. length r.0.items ≡ length openings.items) }
    ensures lives { IfOk result (λ r.
        OverLives S.Scheme L.Elector K.Disk ⟦<S as Speaks<D>>⟧.formats disk openings.items
        (λ Left. MayLeaveOnly (K.calls r.1) (Left (tried openings.items r.0.items)))) }
    ensures any_moment { IfOk result (λ r.
        OverLives S.Scheme L.Elector K.Disk ⟦<S as Speaks<D>>⟧.formats disk openings.items
        (λ Left. LeavesOnly (K.calls disk) (K.calls r.1) (Left (tried openings.items [])))) }
    ensures failures { IfOk result (λ r. K.failed r.1 ≡ failures_behind (K.failed disk) r.0.items) }
    ensures no_room { IfErr result (λ r. r.1 ≡ disk) }
{
    let Ok(mut answers) = Vec::with_capacity(alloc, openings.len()) else {
        return Err((AllocError, disk));
    };
    let mut disk = disk;
    for opening in openings {
        let (answer, left) = live_once(alloc, disk, opening);
        disk = left;
        answers.push_reserved(answer);
    }
    Ok((answers, disk))
}

/// One of them.
fn live_once<S: Scheme<D> + Drop, L: Elector<S, D>, D: Digest, K: Disk>(
    alloc: Global,
    disk: K,
    opening: Opening<S, L, D>,
) -> (Answered<S, D>, K)
    requires { L.built_for opening.elector (S.size opening.scheme.value) }
    ensures lives { OverLives S.Scheme L.Elector K.Disk ⟦<S as Speaks<D>>⟧.formats disk (opening ∷ [])
        (λ Left. MayLeaveOnly (K.calls result.1) (Left (tried (opening ∷ []) (result.0 ∷ [])))) }
    ensures any_moment { OverLives S.Scheme L.Elector K.Disk ⟦<S as Speaks<D>>⟧.formats disk (opening ∷ [])
        (λ Left. LeavesOnly (K.calls disk) (K.calls result.1) (Left (tried (opening ∷ []) []))) }
    ensures failures { K.failed result.1 ≡ tallied (tells_none result.0) (K.failed disk) }
{
    a_disk_reads_as_one_record::<Artifact<S, D>>();
    never_foreign::<S, D>();
    never_contradicts::<S, D>();
    let Opening {
        config,
        scheme,
        elector,
        now,
        events,
    } = opening;
    match Node::open(alloc, config, scheme, elector, disk, now) {
        Ok((node, first)) => {
            let (answers, disk) = live_on(alloc, node, events);
            (Answered::Opened(first, answers), disk)
        }
        Err((fault, disk)) => (Answered::NotOpened(fault), disk),
    }
}

/// The steps over the events, what they answered, and the disk behind them.
fn live_on<S: Scheme<D> + Drop, L: Elector<S, D>, D: Digest, K: Disk>(
    alloc: Global,
    node: Node<S, L, D, K>,
    events: Vec<Event<D>>,
) -> (Answers<S, D>, K)
    requires { are_two (disks_of node) ≡ false }
    ensures turns { AtOwn S.Scheme L.Elector K.Disk ⟦<S as Speaks<D>>⟧.formats node
        (λ f s h. K.keeps → MayLeaveOnly (K.calls result.1) (IsLeftByTurns S.Scheme f s h events.items result.0.replies.items result.0.fault)) }
    ensures any_moment { AtOwn S.Scheme L.Elector K.Disk ⟦<S as Speaks<D>>⟧.formats node (λ f s h.
        (d : K)
        → disks_of node ≡ One d
        → K.keeps
        → (K.calls result.1 ≡ K.calls d) ⊎ LeavesOnly (K.calls d) (K.calls result.1) (OnImage (IsPassed S.Scheme f s h events.items))) }
    ensures failures { (d : K) → disks_of node ≡ One d → K.failed result.1 ≡ tallied (spares_disk result.0.fault) (K.failed d) }
{
    let mut node = node;
    match run(alloc, &mut node, events) {
        Ok(answers) => (answers, node.close()),
        Err(_) => {
            let none = Answers {
                replies: Vec::new(alloc),
                fault: Some(NodeFault::Memory),
            };
            (none, node.close())
        }
    }
}
