//! The end of a run: a table of the members, the audit of their reports, and the status.

use crate::findings::Findings;
use crate::sums::{Standing, Sums};
use crate::world::World;
use std::alloc::AllocError;
use test_words::Committee;
use world_members::{Member, Seat};
use world_network::Broken;

/// The status of a run in which no finalized proposals differed, nobody correct was blamed, and each record was opened again.
const KEPT: u8 = 0;

/// The status of each other run.
const BROKEN: u8 = 1;

impl<S: Committee, M: Seat<S>> World<S, M> {
    /// Tells the end, and gives the status.
    pub(crate) fn end(&mut self) -> Result<u8, Broken> {
        self.tell_members()?;
        let members = self.scenario.members;
        let findings = self.chronicle.audit(self.alloc, members, &self.reports)?;
        let sums = self.sums(&findings);
        let status = status_of(&sums);
        self.chronicle.tell_end(&sums, status)?;
        Ok(status)
    }

    /// The table of the members.
    fn tell_members(&mut self) -> Result<(), AllocError> {
        for member in &self.members {
            self.chronicle.tell_standing(&standing_of(member))?;
        }
        Ok(())
    }

    /// The sums of the run.
    fn sums(&self, findings: &Findings) -> Sums {
        let blamed = findings.blamed(&self.scenario);
        Sums {
            reached: self.reached(),
            chain: self.chain.len() as u64,
            events: self.events,
            packets: self.network.sent,
            lost: self.network.lost,
            evidence: findings.lines,
            named: findings.named() as u64,
            contradictions: self.broke.contradictions,
            blamed: blamed.saturating_add(self.broke.blocks),
            unopened: self.broke.records,
        }
    }

    /// The least view that a member has finalized that is waited for.
    fn reached(&self) -> u64 {
        let mut least = u64::MAX;
        for member in &self.members {
            if member.is_awaited(self.scenario.until) {
                least = least.min(member.seat.last_finalized());
            }
        }
        if least == u64::MAX { 0 } else { least }
    }
}

/// Where a member stands.
fn standing_of<S: Committee, M: Seat<S>>(member: &Member<S, M>) -> Standing {
    let lies = match &member.liar {
        Some(liar) => Some(liar.lies),
        None => None,
    };
    Standing {
        member: member.index,
        view: member.seat.current_view(),
        finalized: member.seat.last_finalized(),
        finals: member.finals,
        lives: member.life,
        refused: member.refused,
        blocked: member.blocked.len() as u64,
        lies,
        upkeep: member.upkeep,
    }
}

/// The status. Two finalized proposals that differ count, though more members lie than may.
fn status_of(sums: &Sums) -> u8 {
    if sums.contradictions > 0 || sums.blamed > 0 || sums.unopened > 0 {
        return BROKEN;
    }
    KEPT
}
