//! The libraries in a program of one's own: a member votes, remembers, starts again, an auditor reads reports, hosts sign, and a whole
//! node finalizes. It names the nine public crates alone.
//!
//! Not called here, since a driver has a line for each (`run_LAYER`): of `simplex_types` and `simplex_messages` what only reads, compares
//! and prints; of `simplex_rules` the windows; of `simplex_batcher` the questions of a round, `Verifier` and `run`; of `simplex_round`
//! what `State` asks of its rounds, and `Slot`; of `simplex_state` what `Node` asks of the voter beside a notarize, and of repair beside
//! `updated`; of `simplex_journal` the pair, `run` and the calls of a disk; of `simplex_node` `run_io`, which `simplex node` is. Laws
//! (`agreement`, `accountability` and their kin) do nothing when they run: what calls them is a proof.
#![tactic(auto)]

ghost use Rattle.std.specs.Prelude.{◌<◌};

mod auditing;
mod checking;
mod deciding;
mod gathering;
mod hosting;
mod keyless;
mod member;
mod recording;
mod repairing;
mod voter_calls;

use auditing::guilty;
use checking::first_breach;
use deciding::{begun, vote_for};
use gathering::{Certified, Gathered, hand_in, next_certificate};
use keyless::certified_by;
use member::finalized_behind;
use recording::{Item, open_record, remember};
use repairing::to_ask_for;
use simplex_journal::{FileDisk, Journal};
use simplex_messages::{Activity, Notarize, Vote};
use simplex_state::resolver::State as Repair;
use simplex_types::{
    Epoch, Participant, PlainScheme, Proposal, Round, Sha256Digest, TermLength, View, Write,
};
use std::alloc::{AllocError, Global};
use std::rc::Rc;
use std::{fs, io};
use voter_calls::{recalled, vote_on};

/// View 1 of epoch 0.
fn first_round() -> Round {
    Round::new(Epoch::new(0), View::new(1))
}

/// The proposal of 32 such bytes for view 1, on genesis.
fn proposal(byte: u8) -> Proposal<Sha256Digest> {
    Proposal::new(first_round(), View::new(0), Sha256Digest::new([byte; 32]))
}

/// Four members, seen by the one with this index.
fn committee(alloc: Global, me: u32) -> Result<PlainScheme, AllocError>
    requires { me < 4 }
{
    PlainScheme::new(alloc, b"simplex", 4, Some(Participant::new(me)))
}

/// The bytes of two reports: the member whose key this is notarizes two proposals of view 1.
fn lies(alloc: Global, liar: &PlainScheme) -> Result<Vec<u8>, AllocError> {
    let mut reports = Vec::new(alloc);
    for byte in [0xaa, 0xbb] {
        if let Some(vote) = Notarize::sign(liar, proposal(byte)) {
            let report: Activity<PlainScheme, Sha256Digest> = Activity::Notarize(vote);
            report.write(&mut reports)?;
        }
    }
    Ok(reports)
}

/// A member starts with what its record holds, and votes for the proposal that the leader sends, if it may.
fn start(rt: &HostRuntime, byte: u8) -> io::Result<()> {
    let alloc = rt.alloc();
    let scheme = Rc::new(alloc, committee(alloc, 3)?)?;
    let Ok((mut journal, record)) = open_record(alloc, FileDisk::open(rt, "record")?) else {
        return println!(rt; "the record can't be opened");
    };
    let me = Participant::new(3);
    if let Some(place) = first_breach(alloc, &scheme, me, &record)? {
        return println!(rt; "artifact {place} breaks a rule");
    }
    let count = record.len();
    println!(rt; "artifacts in a lawful record: {count}")?;
    answer(rt, &scheme, &mut journal, &record, byte)
}

/// It votes, if it may, and remembers that before the vote may be sent.
fn answer(
    rt: &HostRuntime,
    scheme: &Rc<PlainScheme>,
    journal: &mut Journal<Item, FileDisk>,
    record: &[Item],
    byte: u8,
) -> io::Result<()> {
    let mut known = recalled(scheme.clone()?, first_round(), Participant::new(1), record);
    let Some(vote) = vote_on(scheme, &mut known, &proposal(byte)) else {
        return println!(rt; "no vote");
    };
    match remember(journal, &Item::Notarize(vote)) {
        Ok(true) => println!(rt; "a vote that may be sent"),
        Ok(false) | Err(_) => println!(rt; "a vote that may not be sent"),
    }
}

/// The vote of the member with this index for the proposal of view 1, where it is due. Member 1 leads there and made it.
fn vote_of(
    alloc: Global,
    member: u32,
) -> Result<Option<Notarize<PlainScheme, Sha256Digest>>, AllocError>
    requires { member < 4 }
{
    let scheme = committee(alloc, member)?;
    if member == 1 {
        return Ok(Notarize::sign(&scheme, proposal(0xaa)));
    }
    let scheme = Rc::new(alloc, scheme)?;
    let mut voter = begun(alloc, scheme, Sha256Digest::new([0; 32]), 0)?;
    vote_for(&mut voter, &proposal(0xaa), 10)
}

/// Four members vote, and their votes make a certificate, unless one of them is refused.
fn decide(alloc: Global, votes: &mut Gathered) -> Result<Option<Certified>, AllocError> {
    if votes.set_leader(Participant::new(1)).is_err() {
        return Ok(None);
    }
    for member in 0..4 {
        if let Some(vote) = vote_of(alloc, member)? {
            let sender = Participant::new(member);
            if !matches!(hand_in(votes, sender, Vote::Notarize(vote)), Ok(false)) {
                return Ok(None);
            }
        }
    }
    next_certificate(alloc, votes)
}

/// How many views a member that knew nothing has to repair behind the certificate.
fn missing_behind(alloc: Global, certificate: &Certified) -> Result<usize, AllocError> {
    let mut repair = Repair::new(alloc, TermLength::ONE);
    repair.replayed(alloc)?;
    Ok(to_ask_for(alloc, &mut repair, certificate)?.len())
}

/// A member that knew nothing learns what four decided.
fn learn(rt: &HostRuntime) -> io::Result<()> {
    let alloc = rt.alloc();
    let scheme = Rc::new(alloc, committee(alloc, 0)?)?;
    let mut votes = Gathered::new(alloc, first_round(), scheme, false);
    let Some(certificate) = decide(alloc, &mut votes)? else {
        return println!(rt; "no certificate");
    };
    let views = missing_behind(alloc, &certificate)?;
    println!(rt; "a certificate, and views to ask others for: {views}")
}

/// In a scheme of one's own three members of four make a certificate, two don't.
fn certify(rt: &HostRuntime) -> io::Result<()> {
    for signers in 2..4 {
        let verifies = certified_by(rt.alloc(), signers, &proposal(0xaa))?;
        println!(rt; "a certificate of {signers} signatures of hosts: {verifies}")?;
    }
    Ok(())
}

/// A whole node, alone in its committee, whose application answers it six times.
fn live(rt: &HostRuntime) -> io::Result<()> {
    let Some(view) = finalized_behind(rt.alloc(), 6)? else {
        return println!(rt; "no node");
    };
    let view = view.get();
    println!(rt; "final by one whole node: views 1 to {view}")
}

fn main(rt: HostRuntime) -> io::Result<()> {
    let alloc = rt.alloc();
    start(&rt, 0xaa)?;
    // The same after a crash, with another proposal from a leader that lies.
    start(&rt, 0xbb)?;
    fs::remove_file(&rt, "record")?;
    learn(&rt)?;
    let reports = lies(alloc, &committee(alloc, 2)?)?;
    let (guilty, fault) = guilty(alloc, &committee(alloc, 0)?, &reports)?;
    for member in &guilty {
        let index = member.get();
        println!(rt; "guilty: member {index}")?;
    }
    if let Some(place) = fault {
        println!(rt; "no report at byte {place}")?;
    }
    certify(&rt)?;
    live(&rt)
}
