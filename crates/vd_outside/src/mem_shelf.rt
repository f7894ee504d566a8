// Files in memory, with reads that fail when they are asked to.
ghost use Rattle.std.specs.Prelude.{◌≡◌, ◌≢◌, ◌⊎◌, ◌↔◌, ℕ, ◌+◌, ◌-◌, ◌^◌, ◌<◌, ◌≤◌, ◌++◌, List, length, take, drop, min, None, Some, Contains, IfSome, IfOk, IsErr, OnErr, OnOk, is_none, if◌then◌else◌};
ghost use Rattle.vd_outside.specs.Count.{HasCause, raised};
ghost use Rattle.vd_outside.specs.Shelf.{Fills};

use crate::shelf::{Failed, Shelf};
use std::alloc::{AllocError, Global};
use std::collections::BTreeMap;

// A file, and how many faults its name had before it was held beside those of every name.
#[derive(Drop)]
pub struct Held {
    bytes: Vec<u8>,
    earlier: u64,
}

/// Files in memory. It tells what it holds, and fails only at the reads that it was made to fail at, which
/// are faults at every name, and at names that it doesn't hold, which are faults at each of these names.
#[derive(Drop)]
pub struct MemShelf {
    files: BTreeMap<String, Held>,
    failing: Vec<u64>,
    reads: u64,
    // The reads that were made to fail, and with them those of names that aren't held.
    failures: u64,
    misses: u64,
    ghost among: { failures ≤ misses },
}

impl MemShelf {
    ghost use Rattle.vd_outside.specs.Memory.{failing_reads, faults_at, file_of, next_read};

    /// A shelf that holds nothing. The reads with the numbers `failing`, from 0, will fail.
    pub fn new(alloc: Global, failing: Vec<u64>) -> Result<MemShelf, AllocError>
        ensures empty { IfOk result (λ shelf. (name : List ℕ) → file_of shelf name ≡ None) }
        ensures failing { IfOk result (λ shelf. failing_reads shelf ≡ failing.items) }
        ensures unread { IfOk result (λ shelf. next_read shelf ≡ 0) }
        ensures no_fault { IfOk result (λ shelf. (name : List ℕ) → faults_at shelf name ≡ 0) }
    {
        Ok(MemShelf {
            files: BTreeMap::new(alloc),
            failing,
            reads: 0,
            failures: 0,
            misses: 0,
        })
    }

    /// Holds these bytes under this name, in place of what was there.
    pub fn put(&mut self, alloc: Global, name: &str, bytes: &[u8]) -> Result<(), AllocError>
        ensures held { OnOk result (file_of self.new name.now ≡ Some bytes.now) }
        ensures others { OnOk result ((other : List ℕ) → other ≢ name.now → file_of self.new other ≡ file_of self.old other) }
        ensures err { OnErr result ((other : List ℕ) → file_of self.new other ≡ file_of self.old other) }
        ensures failing { failing_reads self.new ≡ failing_reads self.old }
        ensures unread { next_read self.new ≡ next_read self.old }
        ensures no_fault { (other : List ℕ) → faults_at self.new other ≡ faults_at self.old other }
    {
        let key = name.to_string(alloc)?;
        let bytes = bytes.to_vec(alloc)?;
        let earlier = self.earlier_at(name);
        self.files.insert(key, Held { bytes, earlier })?;
        Ok(())
    }

    // What a name has counted beside the faults of every name.
    fn earlier_at(&self, name: &str) -> u64
        ensures { min (self.now.failures + result) (2 ^ 64 - 1) ≡ faults_at self.now name.now }
    {
        match self.files.get(name) {
            Some(held) => held.earlier,
            None => self.misses - self.failures,
        }
    }
}

impl Shelf for MemShelf {
    ghost use Rattle.vd_outside.specs.Memory.{failing_reads, faults_at, file_of, next_read};

    ghost content = { λ shelf. Some (file_of shelf) };

    ghost faults = { faults_at };

    fn read_at(&mut self, name: &str, at: u64, buf: &mut [u8]) -> Result<usize, Failed>
        ensures kept { file_of self.new ≡ file_of self.old }
        ensures count { IfOk result (λ n. n ≤ length buf.old) }
        ensures bytes { IfOk result (λ n. IfSome (file_of self.old name.now) (λ file. Fills file at n buf.old buf.new)) }
        ensures missing { file_of self.old name.now ≡ None → IsErr result }
        ensures cause { HasCause (IsErr result) (faults_at self.old name.now) (faults_at self.new name.now) }
        ensures one_fault { IsErr result → faults_at self.new name.now ≡ raised (faults_at self.old name.now) }
        ensures no_fault { OnOk result ((other : List ℕ) → faults_at self.new other ≡ faults_at self.old other) }
        ensures untouched { OnErr result (buf.new ≡ buf.old) }
        ensures never_lower { (other : List ℕ) → faults_at self.old other ≤ faults_at self.new other }

        // It fails at the reads that it was made to fail at, and at names that it doesn't hold.
        ensures only { IsErr result ↔ (Contains (failing_reads self.old) (next_read self.old) ⊎ (file_of self.old name.now ≡ None)) }

        // A read that was made to fail is a fault at every name, and that of a name that isn't held at each such name alone.
        ensures made { Contains (failing_reads self.old) (next_read self.old) →
            (other : List ℕ) → faults_at self.new other ≡ raised (faults_at self.old other) }
        ensures missed { ¬ Contains (failing_reads self.old) (next_read self.old) → file_of self.old name.now ≡ None →
            (other : List ℕ) → faults_at self.new other ≡ (if is_none (file_of self.old other) then raised (faults_at self.old other) else faults_at self.old other) }
        ensures failing { failing_reads self.new ≡ failing_reads self.old }
        ensures numbered { next_read self.new ≡ raised (next_read self.old) }
    {
        let number = self.reads;
        self.reads = number.saturating_add(1);
        if self.failing.contains(&number) {
            self.failures = self.failures.saturating_add(1);
            self.misses = self.misses.saturating_add(1);
            return Err(Failed);
        }
        let Some(file) = self.files.get(name) else {
            self.misses = self.misses.saturating_add(1);
            return Err(Failed);
        };
        Ok(fill(buf, from_place(&file.bytes, at)))
    }
}

// The bytes from a place on; none past the end.
fn from_place(file: &[u8], at: u64) -> &[u8]
    ensures { result.now ≡ drop at file.now }
{
    match usize::try_from(at) {
        Ok(at) if at < file.len() => &file[at..],
        _ => &[],
    }
}

// Copies as many bytes as there are and as have room into the front of the buffer.
fn fill(buf: &mut [u8], from: &[u8]) -> usize
    ensures count { result ≡ min (length buf.old) (length from.now) }
    ensures filled { buf.new ≡ take result from.now ++ drop result buf.old }
{
    let n = buf.len().min(from.len());
    buf[..n].copy_from_slice(&from[..n]);
    n
}
