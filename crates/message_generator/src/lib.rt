//! Messages of a client, made of a number: documents that are opened and edited at places that are drawn, and a question
//! about each. Contracts know every byte of them, and the texts that the documents have in the end.
#![tactic(auto)]

mod draft;
mod draws;
mod generator;
mod laws;
mod messages;
mod texts;
mod writing;

pub use draft::Draft;
pub use generator::Generator;
pub use laws::clients_can_be_read;
pub use plain::NoMemory;
pub use texts::texts_hash;
