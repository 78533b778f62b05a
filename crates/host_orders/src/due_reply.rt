use plain::Items;

/// What a host gives the answers of.
#[derive(Drop)]
pub enum DueReply<D> {
    /// Settings of a loader, by their version.
    Loader(u32),
    /// Deferred tasks, in the order in which they came.
    Deferred(Items<D>),
    /// The timer with this ticket.
    Timer(u64),
}
