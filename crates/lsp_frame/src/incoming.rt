// The requests that wait for an answer.
ghost use Rattle.std.specs.Prelude.{◌≡◌, ◌↔◌, ℕ, None, Some, is_some, IfOk, OnOk, OnErr};
ghost use Rattle.std.specs.Option.{option_copied};
ghost use Rattle.std.specs.Ordering.{nat_cmp};
ghost use Rattle.std.specs.FinMap as map;
ghost use Rattle.std.specs.BTreeMap.{get, Updates};
ghost use Rattle.lsp_frame.specs.Ids.{id_cmp};
ghost use Rattle.lsp_frame.specs.declared.message.RequestId.{RequestId};
ghost use Rattle.lsp_frame.specs.Pending.{Pending, AreDistinct, IsAbove, Registers, none_pending, id_of, ticket_of, is_pending, registered, completed, closed};

use crate::message::RequestId;
use plain::NoMemory;
use std::alloc::{AllocError, Global};
use std::collections::BTreeMap;
use std::marker::Model;

/// What came of a request that is to wait.
#[derive(Clone, Copy, PartialEq, Eq)]
pub enum Registered {
    New,
    /// A request of its id waits already, under this ticket.
    AlreadyPending(u64),
}

/// The requests that wait for an answer: tickets of ours, and the client's id of each. No two have one id.
pub struct Incoming {
    ids: BTreeMap<u64, RequestId>,
    // The same by id.
    tickets: BTreeMap<RequestId, u64>,
}

impl Drop for Incoming {
    fn drop(self) {
        let Incoming { ids: _, tickets: _ } = self;
    }
}

impl Model for Incoming {
    ghost use Rattle.std.specs.FinMap as map;
    ghost use Rattle.lsp_frame.specs.Indexed.{InStep};
    ghost use Rattle.lsp_frame.specs.Pending.{Pending, pending_code};

    ghost Value = { Pending };

    ghost coded = { pending_code };

    ghost view = { λ a. map.from_entries a.ids.entries };

    ghost invariant = { λ a. InStep (map.from_entries a.ids.entries) (map.from_entries a.tickets.entries) };
}

impl Incoming {
    /// No request waits.
    pub fn new(alloc: Global) -> Incoming
        ensures { result ≡ none_pending }
    {
        Incoming {
            ids: BTreeMap::new(alloc),
            tickets: BTreeMap::new(alloc),
        }
    }

    /// The ticket of an id. No other has it.
    pub fn ticket_of(&self, id: &RequestId) -> Option<u64>
        ensures value { result ≡ ticket_of id.now self.now }
        ensures distinct { AreDistinct self.now }
    {
        self.tickets.get(id).copied()
    }

    /// The id of a ticket.
    pub fn id_of(&self, ticket: u64) -> Option<&RequestId>
        ensures { option_copied result ≡ id_of ticket self.now }
    {
        self.ids.get(&ticket)
    }

    /// Whether a request of this id waits.
    pub fn has_id(&self, id: &RequestId) -> bool
        ensures { result ≡ is_pending id.now self.now }
    {
        self.ticket_of(id).is_some()
    }

    /// Whether the request of this ticket waits.
    pub fn is_pending(&self, ticket: u64) -> bool
        ensures { result ≡ is_some (id_of ticket self.now) }
    {
        self.id_of(ticket).is_some()
    }

    /// Takes a request in, under a ticket, unless one of its id waits. Its method is not kept.
    pub fn register(
        &mut self,
        ticket: u64,
        id: RequestId,
        _method: &str,
    ) -> Result<Registered, NoMemory>
        requires { IsAbove ticket self.old }
        ensures ok { IfOk result (Registers ticket id self.old self.new) }
        ensures err { OnErr result (self.new ≡ self.old) }
    {
        match self.ticket_of(&id) {
            Some(other) => Ok(Registered::AlreadyPending(other)),
            None => {
                enter(&mut self.ids, &mut self.tickets, ticket, id)?;
                Ok(Registered::New)
            }
        }
    }

    /// Closes the request of a ticket, and answers its id.
    pub fn complete(&mut self, ticket: u64) -> Option<RequestId>
        ensures value { result ≡ id_of ticket self.old }
        ensures after { self.new ≡ completed ticket self.old }
        ensures by_id { (id : RequestId) → id_of ticket self.old ≡ Some id → self.new ≡ closed id self.old }
    {
        let id = self.ids.remove(&ticket)?;
        self.tickets.remove(&id);
        Some(id)
    }

    /// Closes the request of an id, and answers its ticket.
    pub fn cancel(&mut self, id: &RequestId) -> Option<u64>
        ensures value { result ≡ ticket_of id.now self.old }
        ensures after { self.new ≡ closed id.now self.old }
    {
        let ticket = self.tickets.remove(id)?;
        self.ids.remove(&ticket);
        Some(ticket)
    }
}

/// Gives a ticket that has none an id, in both trees.
fn enter(
    ids: &mut BTreeMap<u64, RequestId>,
    tickets: &mut BTreeMap<RequestId, u64>,
    ticket: u64,
    id: RequestId,
) -> Result<(), AllocError>
    requires { get nat_cmp ids.old ticket ≡ None }
    ensures ids { OnOk result (Updates nat_cmp ids.old ids.new ticket (Some id)) }
    ensures tickets { OnOk result (Updates id_cmp tickets.old tickets.new id (Some ticket)) }
    ensures same_ids { OnErr result (map.from_entries {R = nat_cmp} ids.new.entries ≡ map.from_entries ids.old.entries) }
    ensures same_tickets { OnErr result (tickets.new.entries ≡ tickets.old.entries) }
{
    put_id(ids, ticket, &id)?;
    match put_ticket(tickets, id, ticket) {
        Ok(()) => Ok(()),
        Err(error) => {
            ids.remove(&ticket);
            Err(error)
        }
    }
}

/// Gives a ticket a copy of an id.
fn put_id(ids: &mut BTreeMap<u64, RequestId>, ticket: u64, id: &RequestId) -> Result<(), AllocError>
    ensures ok { OnOk result (Updates nat_cmp ids.old ids.new ticket (Some id.now)) }
    ensures err { OnErr result (ids.new.entries ≡ ids.old.entries) }
{
    let id = id.clone()?;
    ids.insert(ticket, id)?;
    Ok(())
}

/// Gives an id a ticket.
fn put_ticket(
    tickets: &mut BTreeMap<RequestId, u64>,
    id: RequestId,
    ticket: u64,
) -> Result<(), AllocError>
    ensures ok { OnOk result (Updates id_cmp tickets.old tickets.new id (Some ticket)) }
    ensures err { OnErr result (tickets.new.entries ≡ tickets.old.entries) }
{
    tickets.insert(id, ticket)?;
    Ok(())
}

/// No two that are pending have one id, whatever comes and goes, and so a request is closed by its ticket and by its id alike.
pub fn pending_stays_distinct()
    ensures none { AreDistinct none_pending }
    ensures registered { (ticket : ℕ) (id : RequestId) (p : Pending) → ticket_of id p ≡ None
        → AreDistinct p → AreDistinct (registered ticket id p) }
    ensures completed { (ticket : ℕ) (p : Pending) → AreDistinct p → AreDistinct (completed ticket p) }
    ensures closed { (id : RequestId) (p : Pending) → AreDistinct p → AreDistinct (closed id p) }
    ensures found { (ticket : ℕ) (id : RequestId) (p : Pending) → AreDistinct p
        → (id_of ticket p ≡ Some id) ↔ (ticket_of id p ≡ Some ticket) }
    ensures alike { (ticket : ℕ) (id : RequestId) (p : Pending) → AreDistinct p
        → id_of ticket p ≡ Some id → completed ticket p ≡ closed id p }
{}
