//! The leave to wait, without the runtime that gave it.
use std::marker::PhantomData;
use std::sync::Wait;

/// Who has a runtime with which one may wait has handed this out, so that a thread may wait too.
#[derive(Drop)]
pub struct Leave<R> {
    marker: PhantomData<R>,
}

impl<R: Wait> Leave<R> {
    pub fn of(_rt: &R) -> Leave<R> {
        Leave {
            marker: PhantomData,
        }
    }
}

impl<R: Wait> Wait for Leave<R> {}

// It holds no runtime.
unsafe impl<R> Send for Leave<R> {}
