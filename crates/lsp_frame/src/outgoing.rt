// The requests of the server's own, by number.
ghost use Rattle.std.specs.Prelude.{◌≡◌, ◌≤◌, ◌↔◌, IfOk, OnErr, Err, pos};
ghost use Rattle.lsp_frame.specs.Outgoing.{Outgoing, AreGiven, number_limit, none_waiting, registered, waiting_at, completed, number_of};

use crate::message::RequestId;
use crate::outgoing_fault::OutgoingFault;
use plain::ByNumber;
use std::alloc::Global;
use std::marker::Model;

/// How many numbers there are: all that an `i32` holds from 0 on.
const NUMBER_LIMIT: u32 = 2_147_483_648;

/// The requests that wait for the client's answer, each with what is to follow it. They have the numbers 0, 1, 2 and so on.
pub struct Outgoing<K> {
    given: u32,
    waiting: ByNumber<K>,
}

impl<K: Drop> Drop for Outgoing<K> {
    fn drop(self) {
        let Outgoing {
            given: _,
            waiting: _,
        } = self;
    }
}

impl<K> Model for Outgoing<K> {
    ghost use Rattle.lsp_frame.specs.Outgoing.{Outgoing, outgoing_code, AreGiven, number_limit};

    ghost Value = { Outgoing K };

    ghost coded = { outgoing_code K.code };

    ghost view = { λ o. record { given = o.given; waiting = o.waiting } };

    ghost invariant = { λ o. AreGiven (record { given = o.given; waiting = o.waiting }) };
}

impl<K> Outgoing<K> {
    /// No number was given.
    pub fn new(alloc: Global) -> Outgoing<K>
        ensures { result ≡ none_waiting 0 }
    {
        Outgoing::new_at(alloc, 0)
    }

    /// So many numbers were given, and no request waits.
    pub fn new_at(alloc: Global, given: u32) -> Outgoing<K>
        requires { given ≤ number_limit }
        ensures { result ≡ none_waiting given }
    {
        Outgoing {
            given,
            waiting: ByNumber::new(alloc),
        }
    }

    /// How many numbers were given.
    pub fn given(&self) -> u32
        ensures value { result ≡ self.now.given }
        ensures given { AreGiven self.now }
    {
        self.given
    }

    /// Gives the next number to a request that is to wait.
    pub fn register(&mut self, then: K) -> Result<i32, OutgoingFault>
    where
        K: Drop,
        ensures ok { IfOk result (λ number. (number ≡ pos self.old.given) × (self.new ≡ registered then self.old)) }
        ensures exhausted { (result ≡ Err OutgoingFault.Exhausted) ↔ (self.old.given ≡ number_limit) }
        ensures err { OnErr result (self.new ≡ self.old) }
    {
        if self.given == NUMBER_LIMIT {
            return Err(OutgoingFault::Exhausted);
        }
        let number = self.given;
        self.waiting.insert(u64::from(number), then)?;
        self.given = number + 1;
        Ok(number as i32)
    }

    /// Takes out what is to follow the answer to the request of this id. A text is no id of ours.
    pub fn complete(&mut self, id: &RequestId) -> Option<K>
        ensures value { result ≡ waiting_at id.now self.old }
        ensures after { self.new ≡ completed id.now self.old }
    {
        self.waiting.remove(number_of(id)?)
    }
}

/// The number that an id is.
fn number_of(id: &RequestId) -> Option<u64>
    ensures { result ≡ number_of id.now }
{
    match id {
        RequestId::Number(number) if *number >= 0 => Some(*number as u64),
        _ => None,
    }
}
