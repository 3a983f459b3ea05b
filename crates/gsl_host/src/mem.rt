ghost use Rattle.std.specs.Prelude.{ℕ, Option, Some, Ok, Err, ◌≡◌, ◌≢◌, ◌≤◌, ◌==◌, length, IfOk, OnOk, OnErr, if◌then◌else◌};
ghost use Rattle.std.specs.Option.{option_copied};
ghost use Rattle.std.specs.List.{list_any};
ghost use Rattle.std.specs.FinMap.{get, insert};
ghost use Rattle.gsl_host.specs.declared.target.Target.{Target};
ghost use Rattle.gsl_host.specs.Outside.{Reads, Sets, KeepsOthers, Appends, AppendsSome, other, NeverFall, Rose};
ghost use Rattle.gsl_host.specs.Held.{fresh, told_files, told_streams, told_faults, next_number, will_fail, read_of, after_read, after_write, after_print};

use crate::faults::Faults;
use crate::file_table::FileTable;
use crate::host::Host;
use crate::target::{HostRefusal, ReadRefusal, Stream, Target};
use gsl_base::{Bytes, List, Memory, Text};
use std::alloc::Global;
use std::marker::Model;

/// A host that keeps files and streams in memory, tells them all, and fails the calls that it was
/// asked to fail. Its trait calls are counted from 1.
#[derive(Debug, Drop)]
pub struct MemHost {
    files: FileTable,
    out: Bytes,
    err: Bytes,
    faults: Faults,
    plan: Plan,
}

impl Model for MemHost {
    ghost use Rattle.gsl_host.specs.Held.{Held, held_code};

    ghost Value = { Held };

    ghost coded = { held_code };

    ghost view = { λ h. record { files = h.files; out = h.out; err = h.err; failed = h.faults; planned = h.plan.numbers; calls = h.plan.calls } };
}

/// The numbers of the calls that are to fail, and how many calls there were.
#[derive(Debug, Drop)]
struct Plan {
    numbers: List<u32>,
    calls: u64,
}

impl Plan {
    /// Counts a call, and says whether it is to fail.
    fn count(&mut self) -> bool
        ensures counted { self.new ≡ record self.old { calls = next_number self.old.calls } }
        ensures planned { result ≡ list_any (λ n. n == next_number self.old.calls) self.old.numbers }
    {
        self.calls = self.calls.saturating_add(1);
        let number = self.calls;
        self.numbers
            .as_slice()
            .iter()
            .any(|planned| u64::from(*planned) == number)
    }
}

impl MemHost {
    /// A host with no file and nothing printed, whose trait calls with the numbers in `fail` are to
    /// fail.
    pub fn new(alloc: Global, fail: &[u32]) -> Result<MemHost, Memory>
        ensures { IfOk result (λ host. host ≡ fresh fail.now) }
    {
        Ok(MemHost {
            files: FileTable::new(alloc),
            out: List::new(alloc),
            err: List::new(alloc),
            faults: Faults::new(alloc),
            plan: Plan {
                numbers: List::from_slice(alloc, fail)?,
                calls: 0,
            },
        })
    }

    /// Sets a file. It is no trait call and not counted. After `Memory` all is as before.
    pub fn put_file(&mut self, name: &Text, bytes: &[u8]) -> Result<(), Memory>
        ensures ok { OnOk result (self.new ≡ record self.old { files = insert self.old.files name.now bytes.now }) }
        ensures memory { OnErr result (self.new ≡ self.old) }
    {
        self.files.insert(name, bytes)
    }

    /// The bytes of a file, if there is one.
    pub fn file(&self, name: &Text) -> Option<&[u8]>
        ensures { option_copied result ≡ get self.now.files name.now }
    {
        self.files.get(name)
    }

    /// What standard output has gained.
    pub fn out(&self) -> &[u8]
        ensures { result.now ≡ self.now.out }
    {
        self.out.as_slice()
    }

    /// What standard error has gained.
    pub fn err(&self) -> &[u8]
        ensures { result.now ≡ self.now.err }
    {
        self.err.as_slice()
    }

    /// How many calls failed, over all targets.
    pub fn faults(&self) -> u64
        ensures { result ≡ length self.now.failed }
    {
        self.faults.count()
    }
}

impl Host for MemHost {
    ghost files = { told_files };

    ghost printed = { told_streams };

    ghost faults = { told_faults };

    /// An absent file is a fault of reading it.
    #[tactic(auto, using(crate::proofs::Targets::fault_counts), unfolding(crate::specs::Held::will_fail, crate::specs::Held::read_of, crate::specs::Held::after_read))]
    fn read_file(&mut self, alloc: Global, name: &Text, most: usize) -> Result<Bytes, ReadRefusal>
        ensures answer { Reads (told_files self.old) name.now most result }
        ensures within { IfOk result (λ bytes. length bytes ≤ most) }
        ensures failed { result ≡ Err ReadRefusal.Failed → Rose (told_faults self.old) (told_faults self.new) (Target.Reading name.now) }
        ensures faults { NeverFall (told_faults self.old) (told_faults self.new) }
        ensures files { told_files self.new ≡ told_files self.old }
        ensures streams { (stream : Stream) → told_streams self.new stream ≡ told_streams self.old stream }

        ensures exact { result ≢ Err ReadRefusal.Memory → result ≡ read_of self.old name.now most }
        ensures after { self.new ≡ after_read self.old name.now result }
    {
        let planned = self.plan.count();
        let reading = Target::Reading(Text::from_str(alloc, name.as_str())?);
        self.faults.expect(reading)?;
        if planned {
            return Err(ReadRefusal::Failed);
        }
        let Some(bytes) = self.files.get(name) else {
            return Err(ReadRefusal::Failed);
        };
        self.faults.withdraw();
        if bytes.len() > most {
            return Err(ReadRefusal::TooLong);
        }
        Ok(List::from_slice(alloc, bytes)?)
    }

    #[tactic(auto, using(crate::proofs::Targets::fault_counts, crate::proofs::Names::other_files), unfolding(crate::specs::Held::will_fail, crate::specs::Held::after_write))]
    fn write_file(&mut self, alloc: Global, name: &Text, bytes: &[u8]) -> Result<(), HostRefusal>
        ensures ok { OnOk result (Sets (told_files self.old) (told_files self.new) name.now bytes.now) }
        ensures others { KeepsOthers (told_files self.old) (told_files self.new) name.now }
        ensures failed { result ≡ Err HostRefusal.Failed → Rose (told_faults self.old) (told_faults self.new) (Target.Writing name.now) }
        ensures faults { NeverFall (told_faults self.old) (told_faults self.new) }
        ensures streams { (stream : Stream) → told_streams self.new stream ≡ told_streams self.old stream }

        ensures exact { result ≢ Err HostRefusal.Memory → result ≡ (if will_fail self.old then Err HostRefusal.Failed else Ok tt) }
        ensures after { self.new ≡ after_write self.old name.now bytes.now result }
    {
        let planned = self.plan.count();
        let writing = Target::Writing(Text::from_str(alloc, name.as_str())?);
        self.faults.expect(writing)?;
        if planned {
            return Err(HostRefusal::Failed);
        }
        self.faults.withdraw();
        self.files.insert(name, bytes)?;
        Ok(())
    }

    #[tactic(auto, using(crate::proofs::Targets::fault_counts), unfolding(crate::specs::Held::will_fail, crate::specs::Held::after_print))]
    fn print(&mut self, _alloc: Global, stream: Stream, bytes: &[u8]) -> Result<(), HostRefusal>
        ensures ok { OnOk result (Appends (told_streams self.old stream) (told_streams self.new stream) bytes.now) }
        ensures refused { OnErr result (AppendsSome (told_streams self.old stream) (told_streams self.new stream) bytes.now) }
        ensures other { told_streams self.new (other stream) ≡ told_streams self.old (other stream) }
        ensures failed { result ≡ Err HostRefusal.Failed → Rose (told_faults self.old) (told_faults self.new) (Target.Printing stream) }
        ensures faults { NeverFall (told_faults self.old) (told_faults self.new) }
        ensures files { told_files self.new ≡ told_files self.old }

        ensures exact { result ≢ Err HostRefusal.Memory → result ≡ (if will_fail self.old then Err HostRefusal.Failed else Ok tt) }
        ensures after { self.new ≡ after_print self.old stream bytes.now result }
    {
        let planned = self.plan.count();
        self.faults.expect(Target::Printing(stream))?;
        if planned {
            return Err(HostRefusal::Failed);
        }
        self.faults.withdraw();
        match stream {
            Stream::Out => self.out.extend_from_slice(bytes)?,
            Stream::Err => self.err.extend_from_slice(bytes)?,
        }
        Ok(())
    }
}
