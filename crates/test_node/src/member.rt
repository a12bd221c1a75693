//! The member of a script, whatever its scheme, on whatever disk, and whatever node plays it: at one of each the calls would
//! cost the prover several times as much.

use crate::faults::{say_fault, say_io_fault, say_open_fault};
use crate::lives::{read_lives, say_life};
use crate::medium::Medium;
use crate::seat::Seat;
use crate::setup::Setup;
use crate::spelling::{event_of, say_actions, say_reply};
use crate::starting::read_floor;
use simplex_member::{Action, Event, Reply};
use std::alloc::Global;
use std::marker::PhantomData;
use std::rc::Rc;
use test_words::{Committee, Say, Trouble, Words};
use types_core::{Duplicate, Sha256Digest};
use voter_rules::Floor;
use voter_rules::config::Config;

/// What the calls of a script are made on, whatever the member's scheme, its disk and its node.
pub trait Answers: Drop {
    /// A member that is set up so, with an empty disk, or with two. A committee that can't be is `condition`.
    fn new(alloc: Global, setup: Setup, is_pair: bool) -> Result<Self, Trouble>;

    /// Makes the call of this name.
    fn answer(&mut self, name: &str, words: &mut Words<'_>, say: &mut Say) -> Result<(), Trouble>;
}

/// A member with its disk, or with two, which the node has while it is open.
#[derive(Drop)]
pub struct Member<S: Committee, K, N, T> {
    setup: Setup,
    disk: Option<K>,
    second: Option<K>,
    node: Option<N>,
    floor: Floor<S, Sha256Digest>,
    seat: PhantomData<T>,
}

impl<S: Committee, K: Medium, N: Drop, T> Member<S, K, N, T>
where
    T: Seat<
        Config<Floor<S, Sha256Digest>>,
        S,
        K,
        N,
        Event<Sha256Digest>,
        Action<S, Sha256Digest>,
        Reply<S, Sha256Digest>,
    >,
{
    /// Closes the node that is open.
    fn close(&mut self) {
        if let Some(node) = self.node.take() {
            let (disk, second) = T::close(node);
            self.disk = disk;
            self.second = second;
        }
    }

    /// The disk, where no node is open on it.
    fn disk(&mut self) -> Result<&mut K, Trouble> {
        match &mut self.disk {
            Some(disk) => Ok(disk),
            None => Err(Trouble::Condition),
        }
    }

    /// The second disk, where there is one, and no node is open on it.
    fn second(&mut self) -> Result<&mut K, Trouble> {
        match &mut self.second {
            Some(disk) => Ok(disk),
            None => Err(Trouble::Condition),
        }
    }

    /// The first of the disks, 1, or the second, 2.
    fn disk_of(&mut self, which: u64) -> Result<&mut K, Trouble> {
        match which {
            1 => self.disk(),
            2 => self.second(),
            _ => Err(Trouble::Unreadable),
        }
    }

    /// The node that is open.
    fn node(&mut self) -> Result<&mut N, Trouble> {
        match &mut self.node {
            Some(node) => Ok(node),
            None => Err(Trouble::Condition),
        }
    }

    /// `open NOW`.
    fn open(&mut self, words: &mut Words<'_>, say: &mut Say) -> Result<(), Trouble> {
        let now = words.number()?;
        words.end()?;
        self.close();
        let scheme = self.setup.scheme(say.alloc)?;
        self.open_as(scheme, now, say)
    }

    /// Opens the disk as this member, or both.
    fn open_as(&mut self, scheme: Rc<S>, now: u64, say: &mut Say) -> Result<(), Trouble> {
        let Some(disk) = self.disk.take() else {
            return Err(Trouble::Condition);
        };
        match self.second.take() {
            Some(second) => self.open_both(scheme, disk, second, now, say),
            None => self.open_one(scheme, disk, now, say),
        }
    }

    /// Opens both disks.
    fn open_both(
        &mut self,
        scheme: Rc<S>,
        first: K,
        second: K,
        now: u64,
        say: &mut Say,
    ) -> Result<(), Trouble> {
        let config = self.setup.config(self.floor.duplicate(say.alloc)?);
        match T::open_pair(say.alloc, &self.setup, config, scheme, first, second, now) {
            Ok((node, actions)) => {
                self.node = Some(node);
                say_actions(actions, say)
            }
            Err((fault, first, second)) => {
                self.disk = Some(first);
                self.second = Some(second);
                say_open_fault(fault, say)
            }
        }
    }

    /// Opens the one disk.
    fn open_one(&mut self, scheme: Rc<S>, disk: K, now: u64, say: &mut Say) -> Result<(), Trouble> {
        let config = self.setup.config(self.floor.duplicate(say.alloc)?);
        match T::open(say.alloc, &self.setup, config, scheme, disk, now) {
            Ok((node, actions)) => {
                self.node = Some(node);
                say_actions(actions, say)
            }
            Err((fault, disk)) => {
                self.disk = Some(disk);
                say_open_fault(fault, say)
            }
        }
    }

    /// What the node that is open answers to an event.
    fn step(&mut self, bytes: &[u8], say: &mut Say) -> Result<(), Trouble> {
        let event = event_of(say.alloc, bytes, self.setup.members)?;
        match T::step(self.node()?, event) {
            Ok(reply) => say_reply(&reply, say),
            Err(fault) => say_fault(fault, say),
        }
    }

    /// `floor FLOOR`: what the openings start from that come.
    fn start_from(&mut self, words: &mut Words<'_>, say: &mut Say) -> Result<(), Trouble> {
        self.floor = read_floor(say.alloc, words, self.setup.members)?;
        say.ok()
    }

    /// `event EVENT`.
    fn event(&mut self, words: &mut Words<'_>, say: &mut Say) -> Result<(), Trouble> {
        let bytes = words.bytes(say.alloc)?;
        words.end()?;
        self.step(&bytes, say)
    }

    /// `times COUNT event EVENT`: what is answered each time where that is the same, else `changes`.
    fn times(&mut self, words: &mut Words<'_>, say: &mut Say) -> Result<(), Trouble> {
        let count = words.index()?;
        if words.word() != "event" {
            return Err(Trouble::Unreadable);
        }
        let bytes = words.bytes(say.alloc)?;
        words.end()?;
        self.step(&bytes, say)?;
        if self.answers_so(&bytes, count, say)? {
            return Ok(());
        }
        say.clear();
        say.text("changes")
    }

    /// Whether an event that has come once is answered as was said each time until it has come so often.
    fn answers_so(&mut self, bytes: &[u8], count: u32, said: &Say) -> Result<bool, Trouble> {
        let mut say = Say::new(said.alloc);
        for _ in 1..count {
            say.clear();
            self.step(bytes, &mut say)?;
            if say.line() != said.line() {
                return Ok(false);
            }
        }
        Ok(true)
    }

    /// `rewrite`: the view that the record begins behind then, or `-`.
    fn rewrite(&mut self, words: &Words<'_>, say: &mut Say) -> Result<(), Trouble> {
        words.end()?;
        match T::rewrite(self.node()?) {
            Ok(Some(view)) => say.view(view),
            Ok(None) => say.none(),
            Err(fault) => say_fault(fault, say),
        }
    }

    /// `stream EVENTS`: the replies, one behind the other, and behind them why that ended before the events did.
    fn stream(&mut self, words: &mut Words<'_>, say: &mut Say) -> Result<(), Trouble> {
        let events = words.bytes(say.alloc)?;
        words.end()?;
        let mut replies = Vec::new(say.alloc);
        let ran = T::run(say.alloc, self.node()?, &events, &mut replies);
        say.bytes(&replies)?;
        match ran {
            Ok(()) => Ok(()),
            Err(fault) => say_io_fault(fault, say),
        }
    }

    /// `live NOW EVENTS NOW EVENTS ..`: what each opening answered, with ` , ` between two.
    fn live(&mut self, words: &mut Words<'_>, say: &mut Say) -> Result<(), Trouble> {
        let lives = read_lives(&self.setup, &self.floor, words, say.alloc)?;
        self.close();
        let Some(disk) = self.disk.take() else {
            return Err(Trouble::Condition);
        };
        match T::live(say.alloc, &self.setup, lives, disk) {
            Ok((answers, disk)) => {
                self.disk = Some(disk);
                Self::say_lives(answers, say)
            }
            Err(disk) => {
                self.disk = Some(disk);
                Err(Trouble::Memory)
            }
        }
    }

    /// What openings answered, or `-` for none.
    fn say_lives(answers: Vec<T::Answered>, say: &mut Say) -> Result<(), Trouble> {
        if answers.is_empty() {
            return say.none();
        }
        for answer in answers {
            say_life(T::told(answer), say)?;
        }
        Ok(())
    }

    /// `disk BYTES`, `disk BYTES BYTES`.
    fn put_disk(&mut self, words: &mut Words<'_>, say: &mut Say) -> Result<(), Trouble> {
        let bytes = words.bytes(say.alloc)?;
        let second = Self::read_second(words, say.alloc)?;
        words.end()?;
        self.close();
        self.disk = Some(K::holding(say.alloc, &bytes)?);
        self.second = second;
        say.ok()
    }

    /// The second disk, where its bytes stand behind those of the first.
    fn read_second(words: &mut Words<'_>, alloc: Global) -> Result<Option<K>, Trouble> {
        if !words.more() {
            return Ok(None);
        }
        let bytes = words.bytes(alloc)?;
        Ok(Some(K::holding(alloc, &bytes)?))
    }

    /// `bytes`.
    fn bytes(&mut self, words: &Words<'_>, say: &mut Say) -> Result<(), Trouble> {
        words.end()?;
        self.close();
        say.bytes(self.disk()?.image())?;
        let Some(second) = &self.second else {
            return Ok(());
        };
        say.gap()?;
        say.bytes(second.image())
    }

    /// `fuse CALLS`, `fail_at CALLS`, `fuse DISK CALLS`, `fail_at DISK CALLS`: of this name.
    fn fail(&mut self, name: &str, words: &mut Words<'_>, say: &mut Say) -> Result<(), Trouble> {
        let number = words.number()?;
        let (which, calls) = if words.more() {
            (number, words.number()?)
        } else {
            (1, number)
        };
        words.end()?;
        let disk = self.disk_of(which)?;
        if name == "fuse" {
            disk.fuse(calls);
        } else {
            disk.fail_at(calls);
        }
        say.ok()
    }

    /// The calls on the disk.
    fn hold(&mut self, name: &str, words: &mut Words<'_>, say: &mut Say) -> Result<(), Trouble> {
        match name {
            "disk" => self.put_disk(words, say),
            "bytes" => self.bytes(words, say),
            _ => self.fail(name, words, say),
        }
    }

    /// What the node that is open tells of itself.
    fn ask(&mut self, name: &str, words: &Words<'_>, say: &mut Say) -> Result<(), Trouble> {
        words.end()?;
        let node = self.node()?;
        match name {
            "current_view" => say.view(T::current_view(node)),
            "last_finalized" => say.view(T::last_finalized(node)),
            "is_failed" => say.truth(T::is_failed(node)),
            _ => Err(Trouble::Unreadable),
        }
    }
}

impl<S: Committee, K: Medium, N: Drop, T: Drop> Answers for Member<S, K, N, T>
where
    T: Seat<
        Config<Floor<S, Sha256Digest>>,
        S,
        K,
        N,
        Event<Sha256Digest>,
        Action<S, Sha256Digest>,
        Reply<S, Sha256Digest>,
    >,
{
    fn new(alloc: Global, setup: Setup, is_pair: bool) -> Result<Self, Trouble> {
        S::member_of(alloc, setup.members, setup.me, 0)?;
        let disk = Some(K::holding(alloc, &[])?);
        let second = if is_pair {
            Some(K::holding(alloc, &[])?)
        } else {
            None
        };
        Ok(Member {
            setup,
            disk,
            second,
            node: None,
            floor: Floor::Genesis(Sha256Digest::new([0; 32])),
            seat: PhantomData,
        })
    }

    fn answer(&mut self, name: &str, words: &mut Words<'_>, say: &mut Say) -> Result<(), Trouble> {
        match name {
            "open" => self.open(words, say),
            "event" => self.event(words, say),
            "times" => self.times(words, say),
            "stream" => self.stream(words, say),
            "rewrite" => self.rewrite(words, say),
            "live" => self.live(words, say),
            "floor" => self.start_from(words, say),
            "disk" | "bytes" | "fuse" | "fail_at" => self.hold(name, words, say),
            _ => self.ask(name, words, say),
        }
    }
}
