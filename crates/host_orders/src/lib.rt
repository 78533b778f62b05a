//! What a host keeps of a turn's orders until it gives their answers: settings of a loader, deferred tasks, a timer.
#![tactic(auto)]

mod due_reply;
mod laws;
mod orders;

pub use due_reply::DueReply;
pub use laws::{
    a_replaced_timer_is_never_given, each_order_is_given_once, kinds_are_given_in_order,
};
pub use orders::HostOrders;
pub use plain::NoMemory;
