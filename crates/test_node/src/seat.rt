//! The node of a script, whichever it is.

use crate::setup::Setup;
use simplex_member::{IoFault, NodeFault, OpenFault};
use std::alloc::Global;
use std::rc::Rc;
use types_core::View;

/// What a node is opened with, and what it is handed then.
#[derive(Drop)]
pub struct Life<C: Drop, S: Drop, E: Drop> {
    /// How the node is set up.
    pub config: C,
    /// The member's scheme.
    pub scheme: Rc<S>,
    /// The moment of the opening, in milliseconds.
    pub now: u64,
    /// The events, one after another.
    pub events: Vec<E>,
}

/// What a node that was opened answered.
#[derive(Drop)]
pub struct Told<A: Drop, R: Drop> {
    /// Its first actions.
    pub first: Vec<A>,
    /// The replies.
    pub replies: Vec<R>,
    /// Why it ended before all events were answered.
    pub fault: Option<NodeFault>,
}

/// How a script opens an `N`, a node over its disk `K` with the scheme `S` and a configuration `C`, and has it answer an event `E`
/// by a reply `R`; its first actions are of `A`.
pub trait Seat<C: Drop, S: Drop, K, N, E: Drop, A: Drop, R: Drop> {
    /// What an opening among others answered, and the steps behind it.
    type Answered: Drop;

    /// Opens the disk at a moment, in milliseconds, as this member: the node and its first actions, or why there is none, and the
    /// disk.
    fn open(
        alloc: Global,
        setup: &Setup,
        config: C,
        scheme: Rc<S>,
        disk: K,
        now: u64,
    ) -> Result<(N, Vec<A>), (OpenFault, K)>;

    /// The same of two disks.
    fn open_pair(
        alloc: Global,
        setup: &Setup,
        config: C,
        scheme: Rc<S>,
        first: K,
        second: K,
        now: u64,
    ) -> Result<(N, Vec<A>), (OpenFault, K, K)>;

    /// What it answers to an event.
    fn step(node: &mut N, event: E) -> Result<R, NodeFault>;

    /// Rewrites its record: the view that it begins behind then, or `None` where nothing was rewritten.
    fn rewrite(node: &mut N) -> Result<Option<View>, NodeFault>;

    /// Answers the events that these bytes spell, one behind the other, as those of a stream: appends the bytes of the replies,
    /// and tells why that ended before the events did.
    fn run(
        alloc: Global,
        node: &mut N,
        events: &[u8],
        replies: &mut Vec<u8>,
    ) -> Result<(), IoFault>;

    /// Lives these on the disk, one after another: what each opening answered, and the disk. The disk alone where memory ran out
    /// before any was opened.
    fn live(
        alloc: Global,
        setup: &Setup,
        lives: Vec<Life<C, S, E>>,
        disk: K,
    ) -> Result<(Vec<Self::Answered>, K), K>;

    /// What that was, or why there was no node.
    fn told(answered: Self::Answered) -> Result<Told<A, R>, OpenFault>;

    /// The current view.
    fn current_view(node: &N) -> View;

    /// The last finalized view, or 0.
    fn last_finalized(node: &N) -> View;

    /// Whether a step has failed.
    fn is_failed(node: &N) -> bool;

    /// Gives the disk back, and the second where it stands on two.
    fn close(node: N) -> (Option<K>, Option<K>);
}
