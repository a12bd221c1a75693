//! A member's node, whatever its scheme, whoever leads, and on whatever disk: at one of each the calls would cost the prover several
//! times as much.

ghost use Rattle.std.specs.Prelude.{◌≡◌, IfOk};

use crate::medium::Medium;
use crate::turns::Turns;
use journal_books::Disks;
use node_steps::Node;
use simplex_member::{Action, Event, NodeFault, OpenFault, Reply};
use std::alloc::{AllocError, Global};
use std::rc::Rc;
use test_words::Committee;
use types_core::{Duplicate, Sha256Digest};
use voter_rules::Floor;
use voter_rules::config::Config;
use world_members::{Halt, Seat, config_of, member_of};
use world_network::{Broken, Fuse, Scenario, Times, genesis};

/// How far the seed of a second disk lies behind that of the first.
const SECOND: u64 = 1_000_033;

/// A member's disks, and its node while that is open on them.
#[derive(Drop)]
pub struct Keeper<S: Committee, L: Turns<S>, K: Medium> {
    alloc: Global,
    members: u32,
    index: u32,
    times: Times,
    /// What each opening brings.
    floor: Floor<S, Sha256Digest>,
    disks: Option<Disks<K>>,
    node: Option<Node<S, L, Sha256Digest, K>>,
}

impl<S: Committee, L: Turns<S>, K: Medium> Keeper<S, L, K> {
    /// Opens the disks as this member of the committee.
    fn open_as(&mut self, scheme: S, now: u64) -> Result<Vec<Action<S, Sha256Digest>>, Halt> {
        let elector = L::among(self.alloc, &self.times, scheme.participants())?;
        self.open_with(Rc::new(self.alloc, scheme)?, elector, now)
    }

    /// Opens the disks, where this decides who leads.
    fn open_with(
        &mut self,
        scheme: Rc<S>,
        elector: L,
        now: u64,
    ) -> Result<Vec<Action<S, Sha256Digest>>, Halt>
        requires { L.built_for elector (S.size scheme.value) }
    {
        let config = self.config()?;
        let Some(disks) = self.disks.take() else {
            return Err(Halt::Idle);
        };
        match open_over(self.alloc, config, scheme, elector, disks, now) {
            Ok((node, actions)) => {
                self.node = Some(node);
                Ok(actions)
            }
            Err((fault, disks)) => {
                self.disks = Some(disks);
                Err(not_opened(fault))
            }
        }
    }

    /// How the node is set up: at each opening it brings what the member starts from.
    fn config(&self) -> Result<Config<Floor<S, Sha256Digest>>, AllocError>
        ensures { IfOk result (λ config. config.floor ≡ self.now.floor) }
    {
        let floor = self.floor.duplicate(self.alloc)?;
        Ok(config_of(&self.times, floor))
    }

    /// Closes the node, if it is open.
    fn close_node(&mut self) {
        if let Some(node) = self.node.take() {
            self.disks = Some(node.into_disks());
        }
    }
}

impl<S: Committee, L: Turns<S>, K: Medium> Seat<S> for Keeper<S, L, K> {
    fn new(alloc: Global, scenario: &Scenario, index: u32, fuse: Fuse) -> Result<Self, Broken> {
        let spread = scenario.seed.wrapping_mul(131);
        let seed = spread.wrapping_add(u64::from(index));
        Ok(Keeper {
            alloc,
            members: scenario.members,
            index,
            times: scenario.times,
            floor: Floor::Genesis(genesis()),
            disks: Some(disks_of(alloc, scenario, fuse, seed)?),
            node: None,
        })
    }

    fn start_from(&mut self, floor: Floor<S, Sha256Digest>) {
        self.floor = floor;
    }

    fn open(&mut self, now: u64) -> Result<Vec<Action<S, Sha256Digest>>, Halt> {
        match member_of(self.alloc, self.members, self.index) {
            Ok(scheme) => self.open_as(scheme, now),
            Err(broken) => Err(Halt::Broken(broken)),
        }
    }

    fn step(&mut self, event: Event<Sha256Digest>) -> Result<Reply<S, Sha256Digest>, Halt> {
        let Some(node) = &mut self.node else {
            return Err(Halt::Idle);
        };
        match node.step(event) {
            Ok(reply) => Ok(reply),
            Err(fault) => Err(not_stepped(fault)),
        }
    }

    fn rewrite(&mut self) -> Result<Option<u64>, Halt> {
        let Some(node) = &mut self.node else {
            return Err(Halt::Idle);
        };
        match node.rewrite() {
            Ok(Some(view)) => Ok(Some(view.get())),
            Ok(None) => Ok(None),
            Err(fault) => Err(not_stepped(fault)),
        }
    }

    fn close(&mut self) {
        self.close_node();
    }

    fn go_down(&mut self) -> usize {
        self.close_node();
        match &mut self.disks {
            Some(disks) => mended(disks),
            None => 0,
        }
    }

    fn is_up(&self) -> bool {
        self.node.is_some()
    }

    fn current_view(&self) -> u64 {
        match &self.node {
            Some(node) => node.current_view().get(),
            None => 0,
        }
    }

    fn last_finalized(&self) -> u64 {
        match &self.node {
            Some(node) => node.last_finalized().get(),
            None => 0,
        }
    }
}

/// The node over these disks and its first actions, or the disks behind an opening that failed.
fn open_over<S: Committee, L: Turns<S>, K: Medium>(
    alloc: Global,
    config: Config<Floor<S, Sha256Digest>>,
    scheme: Rc<S>,
    elector: L,
    disks: Disks<K>,
    now: u64,
) -> Result<(Node<S, L, Sha256Digest, K>, Vec<Action<S, Sha256Digest>>), (OpenFault, Disks<K>)>
    requires { L.built_for elector (S.size scheme.value) }
{
    match disks {
        Disks::One(disk) => match Node::open(alloc, config, scheme, elector, disk, now) {
            Ok(opened) => Ok(opened),
            Err((fault, disk)) => Err((fault, Disks::One(disk))),
        },
        Disks::Two(first, second) => {
            match Node::open_pair(alloc, config, scheme, elector, first, second, now) {
                Ok(opened) => Ok(opened),
                Err((fault, first, second)) => Err((fault, Disks::Two(first, second))),
            }
        }
    }
}

/// The empty disks of a member: two where records are rewritten. They share a fuse, so that the calls of both are counted together.
fn disks_of<K: Medium>(
    alloc: Global,
    scenario: &Scenario,
    fuse: Fuse,
    seed: u64,
) -> Result<Disks<K>, Broken> {
    if scenario.rewrite.is_none() {
        return Ok(Disks::One(K::under(alloc, fuse, seed, false)));
    }
    let first = K::under(alloc, fuse.clone()?, seed, true);
    let second = K::under(alloc, fuse, seed.wrapping_add(SECOND), true);
    Ok(Disks::Two(first, second))
}

/// Lets all calls of disks through again. How many bytes they have.
fn mended<K: Medium>(disks: &mut Disks<K>) -> usize {
    match disks {
        Disks::One(disk) => {
            disk.mend();
            disk.size()
        }
        Disks::Two(first, second) => {
            first.mend();
            second.mend();
            first.size().saturating_add(second.size())
        }
    }
}

/// What came of a step that failed.
fn not_stepped(fault: NodeFault) -> Halt {
    match fault {
        NodeFault::Memory => Halt::Broken(Broken::Memory),
        _ => Halt::Crashed,
    }
}

/// What came of an opening that failed.
fn not_opened(fault: OpenFault) -> Halt {
    match fault {
        OpenFault::Memory => Halt::Broken(Broken::Memory),
        OpenFault::Device => Halt::Crashed,
        OpenFault::Foreign(_) | OpenFault::Contradiction(_) => Halt::Lost,
        _ => Halt::Broken(Broken::Setup),
    }
}
