//! Reading on to the next block.
ghost use Rattle.std.specs.Prelude.{◌≡◌, ◌+◌, ◌-◌, ◌^◌, ◌<◌, ◌≤◌, [], None, Some, true, length, IfErr, IfOk};
ghost use Rattle.ht_feed.specs.InFlights.{standing};
ghost use Rattle.ht_feed.specs.Dues.{due_of, headed_due};
ghost use Rattle.ht_feed.specs.Reading.{CountsBlock, Finds, begun};

use crate::came::Came;
use crate::reader::BlockReader;
use crate::stop::Stop;
use ht_io::Source;

/// Reads on to the next block, behind the heads of frames that begin, or to where the reading stops. The head that came
/// last is kept, and the heads are counted.
pub(crate) fn next_block<R: BlockReader, S: Source>(
    reader: &mut R,
    head: &mut R::Head,
    frames: &mut u64,
    most: u16,
    source: &mut S,
) -> Result<R::Block, Stop>
    requires going { (R.counts reader.old).going ≡ true }
    requires some { 1 ≤ most }
    requires bounded { frames.old + (R.counts reader.old).more < 2 ^ 64 - 1 }

    // What the octets that this call took mean.
    ensures block { IfOk result (λ block. Finds
        (standing R.means R.at reader.old None (S.shown source.old)) (standing R.means R.at reader.new None (S.shown source.new))
        (begun head.old frames.old) (begun head.new frames.new) (headed_due (due_of head.new (R.Block.jobs block)))) }
    ensures stopped { IfErr result (λ stop. Finds
        (standing R.means R.at reader.old None (S.shown source.old)) (standing R.means R.at reader.new (Some stop) (S.shown source.new))
        (begun head.old frames.old) (begun head.new frames.new) []) }

    // How many jobs came, and how many heads and jobs still come at most.
    ensures counted { IfOk result (λ block. CountsBlock most (R.counts reader.old) (R.counts reader.new) (R.Block.jobs block)) }
    ensures fewer { IfOk result (λ block. frames.new + (R.counts reader.new).more + length (R.Block.jobs block) ≤ frames.old + (R.counts reader.old).more) }
    ensures never_more { frames.new + (R.counts reader.new).more ≤ frames.old + (R.counts reader.old).more }
{
    if let Some(block) = reader.ready(most) {
        return Ok(block);
    }
    loop {
        match reader.next(most, source) {
            Ok(Came::Head(next)) => {
                *head = next;
                *frames += 1;
            }
            Ok(Came::Block(block)) => return Ok(block),
            Ok(Came::End) => return Err(Stop::Whole),
            Err(fault) => return Err(Stop::from(fault)),
        }
    }
}
