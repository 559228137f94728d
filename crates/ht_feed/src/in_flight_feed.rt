//! An in-flight reader between its source and its consumer.
use crate::book_fault::BookFault;
use std::marker::PhantomData;

/// A feed over an in-flight reader of `R`, a source and a consumer, which it borrows.
///
/// Where the input has a fault, the source fails or the reader is out of memory, the in-flight reader keeps that and gives no
/// more blocks, so that the hits of those that are due are still taken. From a call that fails on each call fails with the same
/// answer, and neither reads nor puts.
#[derive(Drop)]
pub struct InFlightFeed<'a, R, D, S, A> {
    pub(crate) in_flight: &'a mut D,
    pub(crate) source: &'a mut S,
    pub(crate) consumer: &'a mut A,
    // What a call that failed answered.
    pub(crate) failed: &'a mut Option<BookFault>,
    // Only the in-flight reader's type names the reader's, and only by a bound.
    pub(crate) of: PhantomData<R>,
}
