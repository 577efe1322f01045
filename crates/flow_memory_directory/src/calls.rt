// A directory in memory keeps the rule of each call.
use crate::error::MemoryError;
use crate::memory::{MemoryDirectory, strikes};
use crate::reader::{MemoryReader, copy};
use flow_directory::{Access, Directory, Status};
use std::alloc::Global;

impl Directory for MemoryDirectory {
    type Error = MemoryError;

    type Reader = MemoryReader;

    ghost use Rattle.std.specs.Prelude.{true};
    ghost use Rattle.flow_memory_directory.specs.Memory.{files_of, moment_of, left_of};
    ghost use Rattle.flow_memory_directory.specs.Kept.{absent, absent_clean, named, read_only_clean, lent_clean, within};
    ghost use Rattle.flow_memory_directory.specs.Kept.{within_limit, reads_image, fast_within, fast_whole};
    ghost use Rattle.flow_memory_directory.specs.Kept.{counts_now, only_now};

    ghost honest = { λ _. true };

    ghost files = { files_of };

    ghost moment = { moment_of };

    ghost left_since = { left_of };

    ghost absent = { λ d n h is. absent d n is };

    ghost absent_clean = { λ d n h is. absent_clean d n is };

    ghost named = { λ d n h some. named d n some };

    ghost read_only_clean = { λ d n h is. read_only_clean d n is };

    ghost lent_clean = { λ d n h is. lent_clean d n is };

    ghost within = { λ d n place h is. within d n place is };

    ghost within_limit = { λ d n h. within_limit d n };

    ghost reads_image = { λ d n h. reads_image d n };

    ghost fast_within = { λ d n h. fast_within d n };

    ghost fast_whole = { λ d n h is. fast_whole d n is };

    ghost counts_now = { λ d t image h le is. counts_now d t image le is };

    ghost only_now = { λ d image h left. only_now d image left };

    fn note(&self, _error: &MemoryError) {}

    fn status(&mut self, file: u64) -> Result<Option<Status>, MemoryError> {
        let index = self.place(file)?;
        Ok(self.nodes[index].status())
    }

    fn list(&mut self, alloc: Global) -> Result<Vec<u64>, MemoryError> {
        self.listed(alloc)
    }

    fn open(&mut self, file: u64, _access: Access) -> Result<Status, MemoryError> {
        let index = self.place(file)?;
        let Some(status) = self.nodes[index].status() else {
            return Err(MemoryError::Refused);
        };
        self.reopen(index);
        Ok(status)
    }

    fn close(&mut self, _file: u64) {}

    fn create(&mut self, file: u64) -> Result<(), MemoryError> {
        self.create_node(file)
    }

    fn unlink(&mut self, file: u64) -> Result<bool, MemoryError> {
        self.unlink_node(file)
    }

    fn unlink_empty(&mut self, file: u64) -> Result<bool, MemoryError> {
        self.unlink_empty_node(file)
    }

    fn sync_directory(&mut self) -> Result<(), MemoryError> {
        self.sync_names()
    }

    fn settle(&mut self, file: u64) -> Result<(), MemoryError> {
        self.settle_node(file)
    }

    fn loosen(&mut self, file: u64) -> Result<(), MemoryError> {
        self.loosen_node(file)
    }

    fn set_read_only(&mut self, file: u64, read_only: bool) -> Result<(), MemoryError> {
        self.set_mode_of_node(file, read_only)
    }

    fn length(&mut self, file: u64) -> Result<u64, MemoryError> {
        let index = self.place(file)?;
        Ok(self.nodes[index].octets.len() as u64)
    }

    fn read(&mut self, file: u64, at: u64, octets: &mut [u8]) -> Result<(), MemoryError> {
        let index = self.place(file)?;
        copy(&self.nodes[index].octets, at, octets)
    }

    fn write(&mut self, file: u64, at: u64, octets: &[u8]) -> Result<(), MemoryError> {
        self.write_node(file, at, octets)
    }

    fn rewrite(&mut self, file: u64, at: u64, octets: &[u8]) -> Result<(), MemoryError> {
        self.rewrite_node(file, at, octets)
    }

    fn truncate(&mut self, file: u64, count: u64) -> Result<(), MemoryError> {
        self.cut_node(file, count)
    }

    fn retruncate(&mut self, file: u64, count: u64) -> Result<(), MemoryError> {
        self.recut_node(file, count)
    }

    fn sync(&mut self, file: u64) -> Result<(), MemoryError> {
        let index = self.place(file)?;
        if strikes(&mut self.failing) {
            return self.fail_sync(index);
        }
        if self.nodes[index].is_whole() {
            return self.sync_whole(file);
        }
        self.sync_some(file)
    }

    fn lend(&mut self, file: u64) -> Result<MemoryReader, MemoryError> {
        let octets = self.octets_of(file)?;
        self.lend_node(file)?;
        Ok(MemoryReader {
            number: file,
            octets,
        })
    }

    fn take_back(&mut self, reader: MemoryReader) {
        let Ok(index) = self.place(reader.number) else {
            return;
        };
        self.take_back_node(index);
    }
}
