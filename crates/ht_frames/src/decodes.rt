//! What is made of blocks is taken, and whole frames leave.
ghost use Rattle.std.specs.Prelude.{◌≡◌, ◌∷◌, [], List};
ghost use Rattle.ht_feed.specs.Dues.{due_of, headed_due};
ghost use Rattle.ht_feed.specs.Items.{headed_of};
ghost use Rattle.ht_frames.specs.Gathering.{GathersJobs, behind_one};

use crate::book::Book;
use crate::under_way::UnderWay;
use crate::whole_frame::WholeFrame;
use ht_feed::{BookFault, Jobs};
use ht_metric::Job;
use std::alloc::Global;

/// Who decodes whole frames, and books their results.
pub(crate) trait Decodes<U: UnderWay> {
    /// The whole frames whose results aren't booked.
    type Queue;

    /// These, in order.
    ghost whole: { Self.Queue → List U.Whole };

    /// Has the whole frame decoded, and books its result behind those of the others, or keeps it back.
    fn finish<B: Book<<U::Whole as WholeFrame>::Result>>(
        &self,
        alloc: Global,
        under_way: &mut U,
        queue: &mut Self::Queue,
        book: &mut B,
    ) -> Result<(), BookFault>
        requires whole { U.is_whole under_way.old }
        ensures { GathersJobs U.Whole.result_of B.booked B.shown B.lent result book.old book.new (whole queue.old) (whole queue.new)
            (behind_one (U.comes_to under_way.old) (U.results under_way.old))
            (U.results under_way.new) [] };
}

// Finds a job of the frame that is under way, or that begins with this head, and takes it.
fn take_job<U: UnderWay, D: Decodes<U>, B: Book<<U::Whole as WholeFrame>::Result>>(
    by: &D,
    alloc: Global,
    under_way: &mut U,
    queue: &mut D::Queue,
    book: &mut B,
    head: &U::Head,
    job: &Job,
) -> Result<(), BookFault>
    ensures { GathersJobs U.Whole.result_of B.booked B.shown B.lent result book.old book.new (D.whole queue.old) (D.whole queue.new)
        (U.results under_way.old) (U.results under_way.new) (headed_of head.now job.now ∷ []) }
{
    if under_way.take_job(alloc, head, job)? {
        by.finish(alloc, under_way, queue, book)
    } else {
        Ok(())
    }
}

/// Takes what the jobs of a block come to, whose frame has this head. Where it isn't known to fit, the block's jobs are found once more.
pub(crate) fn take_block<
    J: Jobs,
    U: UnderWay,
    D: Decodes<U>,
    B: Book<<U::Whole as WholeFrame>::Result>,
>(
    by: &D,
    alloc: Global,
    under_way: &mut U,
    queue: &mut D::Queue,
    book: &mut B,
    head: &U::Head,
    block: &J,
    answer: &U::Answer,
) -> Result<(), BookFault>
    requires right { U.Answer.answers answer.now (J.jobs block.now) }
    ensures { GathersJobs U.Whole.result_of B.booked B.shown B.lent result book.old book.new (D.whole queue.old) (D.whole queue.new)
        (U.results under_way.old) (U.results under_way.new)
        (headed_due (due_of head.now (J.jobs block.now))) }
{
    match under_way.take(head, block, answer)? {
        Some(true) => by.finish(alloc, under_way, queue, book),
        Some(false) => Ok(()),
        None => {
            for at in 0..U::size(answer, block) {
                let job = block.job(at);
                take_job(by, alloc, under_way, queue, book, head, &job)?;
            }
            Ok(())
        }
    }
}
