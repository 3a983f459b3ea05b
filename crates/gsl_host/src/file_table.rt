ghost use Rattle.std.specs.Prelude.{◌≡◌, OnOk, OnErr};
ghost use Rattle.std.specs.Option.{option_copied};
ghost use Rattle.std.specs.FinMap as map;

use gsl_base::{Bytes, List, Memory, Text};
use std::alloc::Global;
use std::collections::VecDeque;
use std::marker::Model;

/// Files in memory: a log of writes, the newest first. Contracts see the map from each name to the
/// bytes that were written last.
#[derive(Debug, Drop)]
pub(crate) struct FileTable {
    alloc: Global,
    log: VecDeque<(Text, Bytes)>,
}

impl Model for FileTable {
    ghost use Rattle.std.specs.FinMap.{code, from_entries};
    ghost use Rattle.std.specs.Coded.{coded_ℕ, coded_list};
    ghost use Rattle.gsl_host.specs.Outside.{Files};

    ghost Value = { Files };

    ghost coded = { code (coded_list coded_ℕ) (coded_list coded_ℕ) };

    ghost view = { λ t. from_entries t.log.items };
}

impl FileTable {
    /// No file, which takes no memory.
    pub(crate) fn new(alloc: Global) -> FileTable
        ensures { result ≡ map.empty }
    {
        FileTable {
            alloc,
            log: VecDeque::new(alloc),
        }
    }

    /// The bytes of a file, if there is one. The time grows with the count of writes.
    pub(crate) fn get(&self, name: &Text) -> Option<&[u8]>
        ensures { option_copied result ≡ map.get self.now name.now }
    {
        for (written, bytes) in &self.log {
            if written.as_str() == name.as_str() {
                return Some(bytes.as_slice());
            }
        }
        None
    }

    /// Sets a file. After `Memory` all files are as before.
    pub(crate) fn insert(&mut self, name: &Text, bytes: &[u8]) -> Result<(), Memory>
        ensures ok { OnOk result (self.new ≡ map.insert self.old name.now bytes.now) }
        ensures memory { OnErr result (self.new ≡ self.old) }
    {
        let name = Text::from_str(self.alloc, name.as_str())?;
        let bytes = List::from_slice(self.alloc, bytes)?;
        self.log.push_front((name, bytes))?;
        Ok(())
    }
}
