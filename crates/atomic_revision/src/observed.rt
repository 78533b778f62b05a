//! What a seat knows of the word.

/// The view of a seat. No value of it is made.
pub struct Observed {
    /// It is the one seat that raises the word.
    pub writes: bool,
    /// It isn't spent.
    pub live: bool,
    /// The word as it was seen last.
    pub number: u64,
    /// How often this seat loaded the word.
    pub loads: u64,
    /// The greatest number that a joined seat had seen.
    pub told: u64,
}

pub type ReaderHandle = atomic_table::Seat<u8, Observed>;
