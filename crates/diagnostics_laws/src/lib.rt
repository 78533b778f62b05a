//! Laws of diagnostics over whole sessions, without code: what a client is shown of the files, and of which batches
//! its lists are.
#![tactic(auto)]

mod shown;

pub use shown::{
    each_published_list_is_the_boards, generations_are_those_of_batches,
    what_a_batch_brought_stays_stored,
};
