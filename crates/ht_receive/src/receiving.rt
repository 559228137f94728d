//! Results of frames, booked.
ghost use Rattle.ht_feed.specs.Limits.{IsCrewSize, IsWindowSize};
ghost use Rattle.ht_feed.specs.Reading.{IsFreshReader};
ghost use Rattle.ht_receive.specs.Receiving.{BooksInput};

use ht_drive::tell;
use ht_feed::{BlockReader, Ended, Shared, Work, tell_alone};
use ht_frames::{Book, Frames, Receiver, ReceiverTogether, UnderWay, UnderWayTogether, WholeFrame};
use ht_io::Source;
use ht_runs::RunFault;
use std::alloc::Global;
use std::collections::VecDeque;
use std::sync::Wait;
use std::thread::Threads;

/// Reads an input from the source, and books the result of each frame that is whole before its first fault.
///
/// The reader gave nothing yet, and until a head comes `head` stands for the one that came last. The results are those that
/// the frame under way gives of the jobs that the reader means. Every block is tallied in this thread, by the work, and has at
/// most `window` jobs, 1 to 4096. Of the frames one is kept.
///
/// It answers the numbers of frames and of jobs of a whole input. It refuses with the first fault of another, or with `Read`
/// where the source failed, having booked the frames that were read whole; with `Write` where the book failed, also if the
/// source did; and with `NoMemory`. In the last two cases a part of the frames was booked.
/// No clause says how large a block is, or how many frames are kept.
pub fn receive_alone<
    U: UnderWay + Drop,
    R: BlockReader<Head = U::Head> + Drop,
    W: Work<R::Block, Answer = U::Answer>,
    S: Source,
    B: Book<<U::Whole as WholeFrame>::Result>,
>(
    alloc: Global,
    reader: R,
    head: U::Head,
    window: u16,
    work: &W,
    source: &mut S,
    under_way: U,
    book: &mut B,
) -> Result<Ended, RunFault>
    requires window { IsWindowSize window }
    requires fresh { IsFreshReader (R.counts reader) }
    ensures { BooksInput R.means R.at reader head (S.shown source.old) (S.shown source.new)
        B.booked (U.results under_way) (B.shown book.old) (B.shown book.new) (B.lent book.old) (B.lent book.new) result }
{
    let mut under_way = under_way;
    let mut receiver = Receiver::new(alloc, &mut under_way, book);
    tell_alone(alloc, reader, head, window, work, source, &mut receiver)
}

/// Does as [`receive_alone`], and the blocks are tallied by 1 to 64 workers, of which the caller is one, while whole frames are
/// decoded as a [`ReceiverTogether`] has it done. The work sends its workers to the frames given here before they look for
/// blocks, as that of `BesideFrames` does. The results are the same, in the same order.
pub fn receive<
    T: Threads + Wait + Sync,
    U: UnderWayTogether + Drop,
    R: BlockReader<Head = U::Head> + Drop,
    W: Work<R::Block, Answer = U::Answer> + Sync,
    S: Source,
    B: Book<<U::Whole as WholeFrame>::Result>,
>(
    rt: &T,
    alloc: Global,
    workers: u8,
    reader: R,
    head: U::Head,
    window: u16,
    work: &W,
    frames: &Frames<U::Whole>,
    source: &mut S,
    under_way: U,
    book: &mut B,
) -> Result<Ended, RunFault>
where
    R::Block: Shared + Send + Sync,
    U::Answer: Send + Sync,
    requires crew { IsCrewSize workers }
    requires window { IsWindowSize window }
    requires fresh { IsFreshReader (R.counts reader) }
    ensures { BooksInput R.means R.at reader head (S.shown source.old) (S.shown source.new)
        B.booked (U.results under_way) (B.shown book.old) (B.shown book.new) (B.lent book.old) (B.lent book.new) result }
{
    let mut queue = VecDeque::new(alloc);
    let mut under_way = under_way;
    let mut receiver_together = ReceiverTogether::new(
        rt,
        alloc,
        workers,
        frames,
        &mut under_way,
        &mut queue,
        book,
    );
    tell(
        rt,
        alloc,
        workers,
        window,
        reader,
        head,
        work,
        source,
        &mut receiver_together,
    )
}
