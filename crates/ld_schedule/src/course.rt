//! The steps of each task in their order. What stands here says where to look, and proves nothing.

use crate::history::{History, NEVER};
use std::alloc::{AllocError, Global};

/// The steps of each task in their order, and how far they were gone over.
#[derive(Drop)]
pub struct Course {
    /// For each position the next one of its task, or NEVER.
    following: Vec<u32>,
    /// For each task its first position, or NEVER.
    first: Vec<u32>,
    /// For each task the position to go over next.
    at: Vec<u32>,
}

impl Course {
    /// The courses of the history's tasks.
    pub fn new(alloc: Global, history: &History) -> Result<Course, AllocError> {
        let mut following = vec![in alloc; NEVER; history.len()]?;
        let mut first = vec![in alloc; NEVER; history.task_count()]?;
        for position in (0..history.len()).rev() {
            let task = history.step(position as u32).task as usize;
            if task < first.len() && position < following.len() {
                following[position] = first[task];
                first[task] = position as u32;
            }
        }
        Ok(Course {
            following,
            at: first.clone()?,
            first,
        })
    }

    /// Begins anew.
    pub fn restart(&mut self) {
        if self.at.len() == self.first.len() {
            self.at.copy_from_slice(&self.first);
        }
    }

    /// The next step below the cut that wasn't gone over, of the tasks for which the cut has grown.
    pub fn next(&mut self, cut: &[u32], grown: &mut Vec<u32>) -> Option<u32> {
        while let Some(task) = grown.last().copied() {
            let i = task as usize;
            if i < self.at.len() && i < cut.len() {
                let position = self.at[i];
                if position < cut[i] && (position as usize) < self.following.len() {
                    self.at[i] = self.following[position as usize];
                    return Some(position);
                }
            }
            let _ = grown.pop();
        }
        None
    }
}
