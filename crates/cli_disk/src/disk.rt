//! A disk whose bytes a host keeps.

ghost use Rattle.std.specs.Prelude.{◌≡◌, ◌∷◌, ◌+◌, ◌≤◌, is_ok, false, true, length, take, drop, IfOk, OnOk, OnErr, IsErr, ⊤};
ghost use Rattle.journal_single.specs.Disk.{CutTo, IsOverwritten, MayLeave, Synced, Wrote, counted};
ghost use Rattle.cli_disk.specs.HostedDisk.{IsAsBefore, IsFresh};
ghost use Rattle.cli_disk.specs.Told.{told};

use crate::log::Log;
use crate::requests::{File, Requests};
use journal_single::{Disk, DiskFault};
use std::alloc::Global;
use std::marker::Model;

/// A disk over the bytes of a record's file that were handed in. What is to be changed is asked of the host, who carries it out before
/// it carries out anything of a reply that comes with it: then the file keeps the model of a disk as far as the host's does.
///
/// Once a change was asked the bytes that were handed in are let go, and a read fails: a journal reads as it is opened, and no more. So
/// of two files the one that isn't read stays in memory until the record is rewritten. After a change that could not be asked every
/// call fails, until the record is opened anew.
#[derive(Drop)]
pub struct HostedDisk {
    alloc: Global,
    file: File,
    record_bytes: Vec<u8>,
    changed: bool,
    end: u64,
    log: Log,
    requests: Requests,
    failures: u64,
    broken: bool,
    ghost is_here: { changed ≡ false → record_bytes.items ≡ (told log).bytes },
    ghost is_long: { end ≡ length (told log).bytes },
    ghost is_left: { MayLeave (told log).calls (told log).bytes },
}

impl Model for HostedDisk {
    ghost use Rattle.cli_disk.specs.HostedDisk.{HostedState};
    ghost use Rattle.cli_disk.specs.Told.{told};

    ghost Value = { HostedState };

    ghost view = { λ disk. record {
      file = disk.file;
      bytes = (told disk.log).bytes;
      calls = (told disk.log).calls;
      changed = disk.changed;
      failures = disk.failures;
      broken = disk.broken;
      is_left = disk.is_left;
    } };
}

impl HostedDisk {
    /// A disk over the bytes of this file, which asks by this list.
    pub fn over(alloc: Global, file: File, record_bytes: Vec<u8>, requests: Requests) -> HostedDisk
        ensures { IsFresh file record_bytes.items result }
    {
        let end = record_bytes.len() as u64;
        let log = Log::began(&record_bytes);
        HostedDisk {
            alloc,
            file,
            record_bytes,
            changed: false,
            end,
            log,
            requests,
            failures: 0,
            broken: false,
        }
    }

    /// Fails where the disk is broken.
    fn admit(&mut self) -> Result<(), DiskFault>
        ensures answer { IsErr result → self.old.broken ≡ true }
        ensures broken { self.old.broken ≡ true → IsErr result }
        ensures same { IsAsBefore (is_ok result) self.old self.new }
        ensures still { self.new.broken ≡ self.old.broken }
    {
        if self.broken {
            return Err(self.fault());
        }
        Ok(())
    }

    /// A fault, which is counted.
    fn fault(&mut self) -> DiskFault
        ensures same { IsAsBefore false self.old self.new }
        ensures broken { self.new.broken ≡ self.old.broken }
    {
        self.failures = self.failures.saturating_add(1);
        DiskFault
    }
}

impl Disk for HostedDisk {
    ghost keeps = { ⊤ };

    ghost seen = { λ disk. disk.bytes };

    ghost calls = { λ disk. disk.calls };

    ghost failed = { λ disk. disk.failures };

    fn failures(&self) -> u64 {
        self.failures
    }

    fn len(&mut self) -> Result<u64, DiskFault>
        ensures broken { self.old.broken ≡ true → IsErr result }
        ensures len { IfOk result (λ n. n ≡ length self.old.bytes) }
        ensures same { IsAsBefore (is_ok result) self.old self.new }
    {
        self.admit()?;
        Ok(self.end)
    }

    fn read(&mut self, at: u64, buffer: &mut [u8]) -> Result<(), DiskFault>
        requires { at + length buffer.old ≤ length self.old.bytes }
        ensures broken { self.old.broken ≡ true → IsErr result }
        ensures changed { self.old.changed ≡ true → IsErr result }
        ensures bytes { OnOk result (buffer.new ≡ take (length buffer.old) (drop at self.old.bytes)) }
        ensures same { IsAsBefore (is_ok result) self.old self.new }
    {
        self.admit()?;
        if self.changed {
            return Err(self.fault());
        }
        let start = at as usize;
        buffer.copy_from_slice(&self.record_bytes[start..start + buffer.len()]);
        Ok(())
    }

    fn write_at(&mut self, at: u64, bytes: &[u8]) -> Result<(), DiskFault>
        requires { at ≤ length self.old.bytes }
        ensures broken { self.old.broken ≡ true → IsErr result }
        ensures written { OnOk result (IsOverwritten self.old.bytes at bytes.now self.new.bytes) }
        ensures calls { OnOk result (self.new.calls ≡ Wrote at (length bytes.now) ∷ self.old.calls) }
        ensures changed { OnOk result (self.new.changed ≡ true) }
        ensures not_done { OnErr result (IsAsBefore false self.old self.new) }
        ensures breaks { OnErr result (self.new.broken ≡ true) }
        ensures cause { self.new.failures ≡ counted (is_ok result) self.old.failures }
    {
        self.admit()?;
        let size = bytes.len() as u64;
        let Some(end) = at.checked_add(size) else {
            self.broken = true;
            return Err(self.fault());
        };
        match self.requests.write(self.file, at, bytes) {
            Ok(asked) => {
                self.record_bytes = Vec::new(self.alloc);
                self.changed = true;
                self.end = end.max(self.end);
                self.log = self.log.wrote(at, size, asked);
                Ok(())
            }
            Err(_) => {
                self.broken = true;
                Err(self.fault())
            }
        }
    }

    fn cut(&mut self, len: u64) -> Result<(), DiskFault>
        requires { len ≤ length self.old.bytes }
        ensures broken { self.old.broken ≡ true → IsErr result }
        ensures cut { OnOk result (self.new.bytes ≡ take len self.old.bytes) }
        ensures calls { OnOk result (self.new.calls ≡ CutTo len ∷ self.old.calls) }
        ensures changed { OnOk result (self.new.changed ≡ true) }
        ensures not_done { OnErr result (IsAsBefore false self.old self.new) }
        ensures breaks { OnErr result (self.new.broken ≡ true) }
        ensures cause { self.new.failures ≡ counted (is_ok result) self.old.failures }
    {
        self.admit()?;
        match self.requests.cut(self.file, len) {
            Ok(()) => {
                self.record_bytes = Vec::new(self.alloc);
                self.changed = true;
                self.end = len;
                self.log = self.log.cut_to(len);
                Ok(())
            }
            Err(_) => {
                self.broken = true;
                Err(self.fault())
            }
        }
    }

    fn sync(&mut self) -> Result<(), DiskFault>
        ensures broken { self.old.broken ≡ true → IsErr result }
        ensures fixed { OnOk result (self.new.calls ≡ Synced self.old.bytes ∷ self.old.calls) }
        ensures seen { self.new.bytes ≡ self.old.bytes }
        ensures not_done { OnErr result (IsAsBefore false self.old self.new) }
        ensures breaks { OnErr result (self.new.broken ≡ true) }
        ensures cause { self.new.failures ≡ counted (is_ok result) self.old.failures }
    {
        self.admit()?;
        match self.requests.sync(self.file) {
            Ok(()) => {
                self.log = self.log.synced();
                Ok(())
            }
            Err(_) => {
                self.broken = true;
                Err(self.fault())
            }
        }
    }

    ghost seen_is_left = { λ disk keeps. disk.is_left };
}
