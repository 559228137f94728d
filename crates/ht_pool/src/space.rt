//! Room for what is left of a pool.

use crate::ends::Ends;
use crate::own::OwnDeque;
use crate::taker::Taker;

/// The memory that the end of a pool takes, which is taken when it is opened: room for a number for each worker, for the
/// deques, for the takers of each worker, and for the ends of the deques.
#[derive(Drop)]
pub struct Space<T: Drop> {
    pub(crate) ran: Vec<u64>,
    pub(crate) owners: Vec<OwnDeque<T>>,
    pub(crate) rows: Vec<Vec<Taker<T>>>,
    pub(crate) deques: Vec<Ends<T>>,
}
