ghost use Rattle.std.specs.Prelude.{◌≡◌, [], drop, slice_get, OnOk, OnErr};
ghost use Rattle.host_orders.specs.HostOrders.{none_kept, set_loader, defer, set_timer, batch, next, after_next};

use crate::due_reply::DueReply;
use plain::{Items, NoMemory};
use std::alloc::Global;
use std::marker::Model;
use std::mem;

/// The orders that a host has taken and not answered yet.
pub struct HostOrders<D> {
    alloc: Global,
    loaders: Items<u32>,
    deferred: Items<D>,
    timer: Option<u64>,
}

impl<D: Drop> Drop for HostOrders<D> {
    fn drop(self) {
        let HostOrders {
            alloc: _,
            loaders: _,
            deferred: _,
            timer: _,
        } = self;
    }
}

impl<D> Model for HostOrders<D> {
    ghost use Rattle.host_orders.specs.HostOrders.{HostOrders};
    ghost use Rattle.std.specs.Coded.{codes};

    ghost Value = { HostOrders D };

    ghost coded = { Prim.hlevel codes };

    ghost view = { λ o. record { loaders = o.loaders; deferred = o.deferred; timer = o.timer } };
}

impl<D: Drop> HostOrders<D> {
    /// Nothing is kept.
    pub fn new(alloc: Global) -> HostOrders<D>
        ensures { result ≡ none_kept }
    {
        HostOrders {
            alloc,
            loaders: Items::new(alloc),
            deferred: Items::new(alloc),
            timer: None,
        }
    }

    /// Keeps the settings of a loader, of this version.
    pub fn set_loader(&mut self, version: u32) -> Result<(), NoMemory>
        ensures ok { OnOk result (self.new ≡ set_loader version self.old) }
        ensures err { OnErr result (self.new ≡ self.old) }
    {
        self.loaders.push(version)?;
        Ok(())
    }

    /// Keeps a task.
    pub fn defer(&mut self, task: D) -> Result<(), NoMemory>
        ensures ok { OnOk result (self.new ≡ defer task self.old) }
        ensures err { OnErr result (self.new ≡ self.old) }
    {
        self.deferred.push(task)?;
        Ok(())
    }

    /// Keeps the timer with this ticket, in place of an older one.
    pub fn set_timer(&mut self, ticket: u64)
        ensures { self.new ≡ set_timer ticket self.old }
    {
        self.timer = Some(ticket);
    }

    /// Gives what is next: the oldest settings of a loader, else all tasks, else the timer.
    pub fn next(&mut self) -> Option<DueReply<D>>
        ensures value { result ≡ next self.old }
        ensures after { self.new ≡ after_next self.old }
    {
        if let Some(version) = take_first(&mut self.loaders) {
            return Some(DueReply::Loader(version));
        }
        if let Some(tasks) = take_batch(&mut self.deferred, self.alloc) {
            return Some(DueReply::Deferred(tasks));
        }
        Some(DueReply::Timer(self.timer.take()?))
    }
}

/// Takes the first item out, where there is one.
fn take_first<T>(items: &mut Items<T>) -> Option<T>
    ensures value { result ≡ slice_get items.old 0 }
    ensures after { items.new ≡ drop 1 items.old }
{
    if items.is_empty() {
        return None;
    }
    Some(items.remove(0))
}

/// Takes all items out, where there are any.
fn take_batch<T>(items: &mut Items<T>, alloc: Global) -> Option<Items<T>>
    ensures value { result ≡ batch items.old }
    ensures after { items.new ≡ [] }
{
    if items.is_empty() {
        return None;
    }
    Some(mem::replace(items, Items::new(alloc)))
}
