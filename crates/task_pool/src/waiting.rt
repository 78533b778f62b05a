//! Jobs that wait for a thread.
ghost use Rattle.std.specs.Prelude.{◌≡◌, ◌↔◌, IsTrue, [], length, OnOk, OnErr};
ghost use Rattle.task_pool.specs.Waiting.{after_push, after_take, all_waiting, next_waiting, none_waiting};

use method_table::PoolClass;
use plain::NoMemory;
use std::alloc::{AllocError, Global};
use std::collections::VecDeque;
use std::marker::Model;

/// The numbers of the jobs that wait, by their class, each in the order in which they came.
pub struct Waiting {
    latency: VecDeque<u64>,
    workers: VecDeque<u64>,
    formatting: VecDeque<u64>,
    len: usize,
}

impl Drop for Waiting {
    fn drop(self) {
        let Waiting {
            latency: _,
            workers: _,
            formatting: _,
            len: _,
        } = self;
    }
}

impl Model for Waiting {
    ghost use Rattle.std.specs.Prelude.{◌≡◌, ◌+◌, length};
    ghost use Rattle.task_pool.specs.Waiting.{WaitingData};

    ghost Value = { WaitingData };

    ghost view = { λ w. record { latency = w.latency.items; workers = w.workers.items; formatting = w.formatting.items } };

    ghost invariant = { λ w. w.len ≡ length w.latency.items + length w.workers.items + length w.formatting.items };
}

impl Waiting {
    /// None waits.
    pub fn new(alloc: Global) -> Waiting
        ensures { result ≡ none_waiting }
    {
        Waiting {
            latency: VecDeque::new(alloc),
            workers: VecDeque::new(alloc),
            formatting: VecDeque::new(alloc),
            len: 0,
        }
    }

    /// How many wait.
    pub fn len(&self) -> usize
        ensures { result ≡ length (all_waiting self.now) }
    {
        self.len
    }

    /// One more waits.
    pub fn push(&mut self, class: PoolClass, number: u64) -> Result<(), NoMemory>
        ensures ok { OnOk result (self.new ≡ after_push class number self.old) }
        ensures err { OnErr result (self.new ≡ self.old) }
    {
        let Some(len) = self.len.checked_add(1) else {
            return Err(AllocError);
        };
        match class {
            PoolClass::Latency => self.latency.push_back(number)?,
            PoolClass::Worker => self.workers.push_back(number)?,
            PoolClass::Formatting => self.formatting.push_back(number)?,
        }
        self.len = len;
        Ok(())
    }

    /// The next to start, where a thread is free, or the one for formatting is: of a thread's jobs those of latency come first.
    pub fn take(&mut self, has_thread: bool, has_formatter: bool) -> Option<u64>
        ensures value { result ≡ next_waiting has_thread has_formatter self.old }
        ensures after { self.new ≡ after_take has_thread has_formatter self.old }
    {
        if has_formatter && let Some(number) = self.formatting.pop_front() {
            self.len -= 1;
            return Some(number);
        }
        if has_thread && let Some(number) = self.latency.pop_front() {
            self.len -= 1;
            return Some(number);
        }
        if has_thread && let Some(number) = self.workers.pop_front() {
            self.len -= 1;
            return Some(number);
        }
        None
    }
}
