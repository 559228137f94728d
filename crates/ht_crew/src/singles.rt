//! Single jobs as blocks.

/// A feed of single jobs, which it borrows, as one of blocks of one job each.
#[derive(Drop)]
pub(crate) struct Singles<'a, F> {
    pub(crate) feed: &'a mut F,
    // Whether a call of the feed has failed.
    pub(crate) failed: &'a mut bool,
}
