//! A feed of single jobs as a feed of blocks.
ghost use Rattle.std.specs.Prelude.{◌≡◌};
ghost use Rattle.ht_crew.specs.Singles.{LeadsOn, in_blocks, names, names_of};
ghost use Rattle.ht_crew.specs.Noting.{leads_on-more, leads_on-none};

use crate::feed::Feed;
use crate::singles::Singles;
use ht_feed::{BlockFeed, OneHit, OneJob};
use ht_metric::Hit;

impl<'a, F: Feed> Singles<'a, F> {
    /// The jobs of a feed as blocks, where `failed` says whether a call of it has failed, and goes on saying so.
    pub(crate) fn new(feed: &'a mut F, failed: &'a mut bool) -> Singles<'a, F>
        ensures names { names_of result ≡ names feed.entry.ghost_name failed.entry.ghost_name }
        ensures feed { result.feed.now ≡ feed.old }
        ensures failed { result.failed.now ≡ failed.old }
    {
        Singles { feed, failed }
    }
}

impl<'a, F: Feed> BlockFeed for Singles<'a, F> {
    type Fault = F::Fault;

    type Block = OneJob;

    type Answer = OneHit;

    ghost shown = { in_blocks F.shown };

    ghost leads = { LeadsOn F.leads F.shown };

    fn next(&mut self, _most: u16) -> Result<Option<OneJob>, F::Fault> {
        match self.feed.next() {
            Ok(Some(job)) => Ok(Some(OneJob { job })),
            Ok(None) => Ok(None),
            Err(fault) => {
                *self.failed = true;
                Err(fault)
            }
        }
    }

    #[tactic(auto, using(crate::proofs::InBlocks::first_job))]
    fn take(&mut self, block: &OneJob, answer: &OneHit) -> Result<(), F::Fault> {
        let hit = Hit::join(block.job.copy(), answer.found);
        match self.feed.take(hit) {
            Ok(()) => Ok(()),
            Err(fault) => {
                *self.failed = true;
                Err(fault)
            }
        }
    }

    ghost stays = { leads_on-none F.leads F.shown F.stays };

    ghost goes_on = { leads_on-more F.leads F.shown F.goes_on };
}
