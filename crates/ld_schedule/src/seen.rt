//! The takings that were gone over. What stands here says where to look, and proves nothing.

use crate::history::NEVER;
use std::alloc::{AllocError, Global};

/// A reader's taking.
#[derive(Clone, Copy, Debug)]
pub struct Reader {
    pub task: u32,
    pub position: u32,
}

/// For each lock the latest of its takings that were gone over as a writer, and those as a reader after it, the latest one
/// of each task.
#[derive(Drop)]
pub struct Seen {
    writers: Vec<u32>,
    readers: Vec<Vec<Reader>>,
    /// The locks of which something stands here.
    locks: Vec<u32>,
}

impl Seen {
    /// Nothing of this many locks.
    pub fn new(alloc: Global, locks: usize) -> Result<Seen, AllocError> {
        let mut readers = Vec::with_capacity(alloc, locks)?;
        for _ in 0..locks {
            readers.push(Vec::new(alloc))?;
        }
        Ok(Seen {
            writers: vec![in alloc; NEVER; locks]?,
            readers,
            locks: Vec::new(alloc),
        })
    }

    /// Forgets all.
    pub fn clear(&mut self) {
        for lock in &self.locks {
            let i = *lock as usize;
            if i < self.writers.len() && i < self.readers.len() {
                self.writers[i] = NEVER;
                self.readers[i].clear();
            }
        }
        self.locks.clear();
    }

    /// The latest writer's taking of the lock, or NEVER.
    pub fn writer(&self, lock: u32) -> u32 {
        if lock as usize >= self.writers.len() {
            return NEVER;
        }
        self.writers[lock as usize]
    }

    /// The readers' takings of the lock after it.
    pub fn readers_of(&self, lock: u32) -> &[Reader] {
        if lock as usize >= self.readers.len() {
            return &[];
        }
        self.readers[lock as usize].as_slice()
    }

    /// Notes a writer's taking, which is the latest.
    pub fn put_writer(&mut self, lock: u32, position: u32) -> Result<(), AllocError> {
        let i = lock as usize;
        if i >= self.writers.len() || i >= self.readers.len() {
            return Ok(());
        }
        if self.writers[i] == NEVER && self.readers[i].is_empty() {
            self.locks.push(lock)?;
        }
        self.writers[i] = position;
        self.readers[i].retain(|reader| reader.position > position);
        Ok(())
    }

    /// Notes a reader's taking after the latest one of a writer.
    pub fn put_reader(&mut self, lock: u32, reader: Reader) -> Result<(), AllocError> {
        let i = lock as usize;
        if i >= self.writers.len() || i >= self.readers.len() {
            return Ok(());
        }
        if self.writers[i] == NEVER && self.readers[i].is_empty() {
            self.locks.push(lock)?;
        }
        put(&mut self.readers[i], reader)
    }
}

/// Puts a reader's taking in the place of an earlier one of its task.
fn put(readers: &mut Vec<Reader>, reader: Reader) -> Result<(), AllocError> {
    for k in 0..readers.len() {
        if readers[k].task == reader.task {
            readers[k] = reader;
            return Ok(());
        }
    }
    readers.push(reader)?;
    Ok(())
}
