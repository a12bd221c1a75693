//! What an audit finds in the reports of all correct members.

use crate::chronicle::Chronicle;
use crate::reports::Reports;
use cli_audit::{Trouble, write_audit};
use std::alloc::{AllocError, Global};
use world_network::{Broken, Scenario};

/// What the audit found.
#[derive(Drop)]
pub struct Findings {
    /// Whom it names, each once.
    named: Vec<u32>,
    /// How many lines it wrote.
    pub lines: u64,
}

impl Findings {
    /// How many members it names.
    pub fn named(&self) -> usize {
        self.named.len()
    }

    /// How many correct members it names.
    pub fn blamed(&self, scenario: &Scenario) -> u64 {
        let mut blamed: u64 = 0;
        for member in &self.named {
            if !scenario.lies(*member) {
                blamed = blamed.saturating_add(1);
            }
        }
        blamed
    }

    /// Takes up a line of the audit.
    fn take(&mut self, line: &str) -> Result<(), AllocError> {
        self.lines = self.lines.saturating_add(1);
        let Some(signer) = signer_of(line) else {
            return Ok(());
        };
        if self.named.contains(&signer) {
            return Ok(());
        }
        self.named.push(signer)?;
        Ok(())
    }
}

impl Chronicle {
    /// Audits the reports of a committee of so many, and tells the lines.
    pub fn audit(
        &mut self,
        alloc: Global,
        members: u32,
        reports: &Reports,
    ) -> Result<Findings, Broken> {
        let text = audit_text(alloc, members, reports)?;
        let mut findings = Findings {
            named: Vec::new(alloc),
            lines: 0,
        };
        let Ok(text) = std::str::from_utf8(&text) else {
            return Err(Broken::Device);
        };
        self.tell_audit(text, &mut findings)?;
        Ok(findings)
    }

    /// Tells the lines of an audit, and notes whom they name.
    fn tell_audit(&mut self, text: &str, findings: &mut Findings) -> Result<(), AllocError> {
        for line in text.lines() {
            findings.take(line)?;
            self.tell_evidence(line)?;
        }
        Ok(())
    }

    /// A line of the audit.
    fn tell_evidence(&mut self, line: &str) -> Result<(), AllocError> {
        if !self.teller.tells_some() {
            return Ok(());
        }
        self.teller.begin("evidence")?;
        self.teller.line(line)?;
        self.teller.end()
    }
}

/// The lines of the audit of a committee of so many.
fn audit_text(alloc: Global, members: u32, reports: &Reports) -> Result<Vec<u8>, Broken> {
    let count = match u16::try_from(members) {
        Ok(count) if count > 0 => count,
        _ => return Err(Broken::Setup),
    };
    let mut text = Vec::new(alloc);
    let mut input = reports.bytes();
    match write_audit(alloc, count, &mut input, &mut text) {
        Ok(_) => Ok(text),
        Err(Trouble::Memory) => Err(Broken::Memory),
        Err(_) => Err(Broken::Device),
    }
}

/// The signer whom a line of the audit names: the number behind the word `signer`.
fn signer_of(line: &str) -> Option<u32> {
    let (_, behind) = line.split_once(" signer ")?;
    let number = match behind.split_once(' ') {
        Some((number, _)) => number,
        None => behind,
    };
    number.parse().ok()
}
