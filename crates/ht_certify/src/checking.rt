//! The check of a file.
ghost use Rattle.std.specs.Prelude.{◌≡◌, ◌≢◌, Err};
ghost use Rattle.ht_io.specs.Devices.{IsLater};
ghost use Rattle.ht_runs.specs.Filters.{SaysNothing};
ghost use Rattle.ht_runs.specs.Streamed.{Streamed};
ghost use Rattle.ht_runs.specs.declared.faults.RunFault.TheVariants.{Write};
ghost use Rattle.ht_certify.specs.Checks.{checking};

use crate::check_putting::{BLOCK, put, put_block};
use crate::lines::push_line;
use crate::score::Score;
use ht_cert::{Record, RecordReader, RecordStep};
use ht_io::{Sink, Source};
use ht_runs::RunFault;
use ht_text::push_checked_line;
use std::alloc::Global;

/// Room for lines that wait: a block, and a line that begins in front of its end.
const ROOM: usize = BLOCK + 128;

/// Reads a file of certificates (HTCT) from the source, checks each, and puts a line for each record into the sink: `job K
/// yes`, or `job K no NAME at N` with the first thing that is wrong and the number that this carries. K counts from 0.
/// Behind the last record it puts `end J jobs yes Y`.
///
/// The answer is `Ok` for a whole file, whatever its certificates are worth. It refuses with the first fault of an input that
/// is no file of certificates, with `Read` where the source failed, with `Write` where the sink failed, also if the source did,
/// and with `NoMemory`.
/// The lines of the records in front of a fault of the format or of the source are put; the line of the fault is not. Where
/// the sink failed or memory ran out, a part of the lines was put.
///
/// Lines are put together, some 16 KiB at a time. Nothing of the file is kept but one record and the lines that wait.
pub fn check_file<S: Source, K: Sink>(
    alloc: Global,
    source: &mut S,
    sink: &mut K,
) -> Result<(), RunFault>
    ensures checks { Streamed checking (S.shown source.old) (S.shown source.new) (K.shown sink.old) (K.shown sink.new) SaysNothing result }

    // Where the sink failed the answer is `Write`, whatever else failed.
    ensures writes { result ≢ Err Write → (K.shown sink.new).faults ≡ (K.shown sink.old).faults }

    // However it ends, the devices are the same, and take back no fault.
    ensures reads_later { IsLater (S.shown source.old) (S.shown source.new) }
    ensures puts_later { IsLater (K.shown sink.old) (K.shown sink.new) }
{
    let mut text = String::with_capacity(alloc, ROOM)?;
    let mut recorded = Record::empty(alloc);
    let mut reader = RecordReader::new();
    let mut score = Score::new();
    loop {
        match reader.next(source, &mut recorded) {
            Ok(RecordStep::Whole) => {
                let is_right = push_line(&mut text, score.jobs, &recorded)?;
                score.count(is_right);
                put_block(&mut text, sink)?;
            }
            Ok(RecordStep::End) => {
                push_checked_line(&mut text, score.jobs, score.right)?;
                put(&mut text, sink)?;
                return Ok(());
            }
            Err(fault) => {
                put(&mut text, sink)?;
                return Err(RunFault::from(fault));
            }
        }
    }
}
