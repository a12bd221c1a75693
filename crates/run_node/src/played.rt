//! The node that scripts are played on.

ghost use Rattle.std.specs.Prelude.{◌≡◌, All, IfOk};

use journal_single::Disk;
use node_steps::Node;
use simplex_member::{Action, Event, IoFault, NodeFault, OpenFault, Reply};
use simplex_node::{Answered, CountedWriter, Opening, live, run_io};
use std::alloc::{AllocError, Global};
use std::io::{Read, Write};
use std::mem;
use std::rc::Rc;
use test_node::{Life, Medium, Member, Seat, Setup, Told, Turns, play_on};
use test_words::Committee;
use types_core::{Digest, Scheme, Sha256Digest, View};
use voter_rules::Floor;
use voter_rules::config::Config;

/// A node of the product, whatever its scheme, whoever leads, and on whatever disk: at one of each the calls would cost the prover
/// several times as much.
#[derive(Drop)]
struct NodeSeat;

impl<S: Scheme<D> + Drop, L: Turns<S, D>, D: Digest, K: Disk> Seat<
    Config<Floor<S, D>>,
    S,
    K,
    Node<S, L, D, K>,
    Event<D>,
    Action<S, D>,
    Reply<S, D>,
> for NodeSeat {
    type Answered = Answered<S, D>;

    fn open(
        alloc: Global,
        setup: &Setup,
        config: Config<Floor<S, D>>,
        scheme: Rc<S>,
        disk: K,
        now: u64,
    ) -> Result<(Node<S, L, D, K>, Vec<Action<S, D>>), (OpenFault, K)> {
        match L::among(alloc, setup, scheme.participants()) {
            Ok(elector) => Node::open(alloc, config, scheme, elector, disk, now),
            Err(_) => Err((OpenFault::Memory, disk)),
        }
    }

    fn open_pair(
        alloc: Global,
        setup: &Setup,
        config: Config<Floor<S, D>>,
        scheme: Rc<S>,
        first: K,
        second: K,
        now: u64,
    ) -> Result<(Node<S, L, D, K>, Vec<Action<S, D>>), (OpenFault, K, K)> {
        match L::among(alloc, setup, scheme.participants()) {
            Ok(elector) => Node::open_pair(alloc, config, scheme, elector, first, second, now),
            Err(_) => Err((OpenFault::Memory, first, second)),
        }
    }

    fn step(node: &mut Node<S, L, D, K>, event: Event<D>) -> Result<Reply<S, D>, NodeFault> {
        node.step(event)
    }

    fn rewrite(node: &mut Node<S, L, D, K>) -> Result<Option<View>, NodeFault> {
        node.rewrite()
    }

    fn run(
        alloc: Global,
        node: &mut Node<S, L, D, K>,
        events: &[u8],
        replies: &mut Vec<u8>,
    ) -> Result<(), IoFault> {
        let mut reader = events;
        let mut writer = CountedWriter::new(mem::replace(replies, Vec::new(alloc)));
        let ended = run_io(alloc, node, &mut reader, &mut writer);
        *replies = writer.into_inner();
        ended
    }

    fn live(
        alloc: Global,
        setup: &Setup,
        lives: Vec<Life<Config<Floor<S, D>>, S, Event<D>>>,
        disk: K,
    ) -> Result<(Vec<Answered<S, D>>, K), K> {
        let Ok(openings) = openings::<S, L, D>(alloc, setup, lives) else {
            return Err(disk);
        };
        match live(alloc, disk, openings) {
            Ok(lived) => Ok(lived),
            Err((_, disk)) => Err(disk),
        }
    }

    fn told(answered: Answered<S, D>) -> Result<Told<Action<S, D>, Reply<S, D>>, OpenFault> {
        match answered {
            Answered::Opened(first, answers) => Ok(Told {
                first,
                replies: answers.replies,
                fault: answers.fault,
            }),
            Answered::NotOpened(fault) => Err(fault),
        }
    }

    fn current_view(node: &Node<S, L, D, K>) -> View {
        node.current_view()
    }

    fn last_finalized(node: &Node<S, L, D, K>) -> View {
        node.last_finalized()
    }

    fn is_failed(node: &Node<S, L, D, K>) -> bool {
        node.is_failed()
    }

    fn close(node: Node<S, L, D, K>) -> (Option<K>, Option<K>) {
        if !node.is_pair() {
            return (Some(node.close()), None);
        }
        let (first, second) = node.close_pair();
        (Some(first), Some(second))
    }
}

/// The openings of these lives.
fn openings<S: Scheme<D> + Drop, L: Turns<S, D>, D: Digest>(
    alloc: Global,
    setup: &Setup,
    lives: Vec<Life<Config<Floor<S, D>>, S, Event<D>>>,
) -> Result<Vec<Opening<S, L, D>>, AllocError>
    ensures { IfOk result (λ r. All (λ o. L.built_for o.elector (S.size o.scheme.value)) r.items) }
{
    let mut openings = Vec::new(alloc);
    for life in lives {
        openings.push(opening_of(alloc, setup, life)?)?;
    }
    Ok(openings)
}

/// The opening of one of them.
fn opening_of<S: Scheme<D> + Drop, L: Turns<S, D>, D: Digest>(
    alloc: Global,
    setup: &Setup,
    life: Life<Config<Floor<S, D>>, S, Event<D>>,
) -> Result<Opening<S, L, D>, AllocError>
    ensures { IfOk result (λ o. L.built_for o.elector (S.size o.scheme.value)) }
{
    let elector = L::among(alloc, setup, life.scheme.participants())?;
    Ok(Opening {
        config: life.config,
        scheme: life.scheme,
        elector,
        now: life.now,
        events: life.events,
    })
}

/// A member of the scripts, played by a node of the product.
type Played<S, L, K> = Member<S, K, Node<S, L, Sha256Digest, K>, NodeSeat>;

/// Plays a script on nodes over disks `K`, and gives the status to end with: a member's scheme is `S` where it is called `plain`, and
/// `L` says who leads; where it is called `salted` these are `Z` and `M`.
pub(crate) fn play_nodes<S, Z, L, M, K, R, W>(alloc: Global, input: R, output: &mut W) -> u8
where
    S: Committee,
    Z: Committee,
    L: Turns<S, Sha256Digest>,
    M: Turns<Z, Sha256Digest>,
    K: Medium,
    R: Read + Drop,
    W: Write,
{
    play_on::<Played<S, L, K>, Played<Z, M, K>, R, W>(alloc, input, output)
}
