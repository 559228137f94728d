//! The reader of certificates.
ghost use Rattle.std.specs.Prelude.{◌≡◌, ◌<◌, ◌≤◌, ◌+◌, ◌*◌, ℕ, None, Some, Ok, Err, Result, IfOk, IfErr};
ghost use Rattle.ht_io.specs.Devices.{Device, IsLater};
ghost use Rattle.ht_io.specs.declared.faults.InFault.{InFault as InFaultValue};
ghost use Rattle.ht_cert.specs.declared.reader.RecordStep.{RecordStep as RecordStepValue};
ghost use Rattle.ht_cert.specs.Formats.{certificates, records_due};
ghost use Rattle.ht_cert.specs.Readers.{Advances, HasItsPoints, ReadsNext, StageFits, finished, here, more, number as number_of, shown_by};

use crate::fields;
use crate::record::Record;
use crate::turn::{Stage, Turn};
use ht_fields::end;
use ht_io::{InFault, Source};
use std::marker::Model;

/// What a reader answers where nothing is wrong.
#[derive(Clone, Copy, Debug, PartialEq, Eq)]
pub enum RecordStep {
    /// A record was read whole.
    Whole,
    /// The file is whole, and the input ended behind it.
    End,
}

/// Reads a file of certificates from a source, record by record.
#[derive(Debug, Drop)]
pub struct RecordReader {
    stage: Stage,
    at: u64,
}

impl Model for RecordReader {
    ghost use Rattle.ht_cert.specs.Readers.{Progress, StageFits};

    ghost Value = { Progress };

    ghost view = { λ r. record { stage = r.stage; at = r.at } };

    ghost invariant = { λ r. StageFits r.stage r.at };
}

impl RecordReader {
    /// A reader in front of a file, whatever source that will come from.
    pub fn new() -> RecordReader
        ensures first { (source : Device ℕ) → shown_by result source ≡ here certificates.start 0 source }
        ensures number { number_of result ≡ 0 }
        ensures few { more result ≤ 137438953472 }
        ensures going { finished result ≡ None }
    {
        RecordReader {
            stage: Stage::Begin,
            at: 0,
        }
    }

    /// Reads the next record into `into`, or the end of the file. The marks are read into the memory of those that `into`
    /// had; for more of them memory is taken as they come.
    ///
    /// With `Whole` the record that was read stands in `into`. With any other answer nothing is said of `into`, which may
    /// have a part of a record. `Format` comes at the first fault of the file, behind all records before it, and the octets
    /// taken end with the field at fault. `Read` comes where the source failed, and `NoMemory` where a mark found no room.
    /// Behind these and `End` each further call answers the same, and takes nothing.
    pub fn next<S: Source>(
        &mut self,
        source: &mut S,
        into: &mut Record,
    ) -> Result<RecordStep, InFault>
        // What the octets that this call took mean.
        ensures told { finished self.old ≡ None
            → ReadsNext result (shown_by self.old (S.shown source.old)) (shown_by self.new (S.shown source.new)) into.new }

        // Records are numbered from 0, and fewer are left behind each.
        ensures passed { IfOk result (λ came. Advances self.old self.new came into.new) }

        // Each claims a point for each stream of its job.
        ensures points { result ≡ Ok RecordStep.Whole → HasItsPoints into.new }

        // What stays.
        ensures again { (answer : Result RecordStepValue InFaultValue) → finished self.old ≡ Some answer
            → (result ≡ answer) × (self.new ≡ self.old) × (source.new ≡ source.old) }
        ensures stopped { IfErr result (λ fault. finished self.new ≡ Some (Err fault)) }
        ensures done { result ≡ Ok RecordStep.End → finished self.new ≡ Some (Ok RecordStep.End) }
        ensures later { IsLater (S.shown source.old) (S.shown source.new) }
    {
        match self.stage {
            Stage::Begin => self.begin(source, into),
            Stage::Next(turn) => self.go_on(source, turn, into),
            Stage::Ended => Ok(RecordStep::End),
            Stage::Stopped(fault) => Err(fault),
        }
    }

    // Reads what stands in front of the records, and then as `go_on` does.
    fn begin<S: Source>(&mut self, source: &mut S, into: &mut Record) -> Result<RecordStep, InFault>
        ensures told { ReadsNext result (here certificates.start 0 (S.shown source.old)) (shown_by self.new (S.shown source.new)) into.new }
        ensures passed { IfOk result (λ came. Advances (record { stage = Stage.Begin; at = 0 }) self.new came into.new) }
        ensures points { result ≡ Ok RecordStep.Whole → HasItsPoints into.new }
        ensures stopped { IfErr result (λ fault. self.new.stage ≡ Stage.Stopped fault) }
        ensures done { result ≡ Ok RecordStep.End → self.new.stage ≡ Stage.Ended }
        ensures later { IsLater (S.shown source.old) (S.shown source.new) }
    {
        match fields::start(source) {
            Ok(turn) => {
                self.at = 13;
                self.stage = Stage::Next(turn);
                self.go_on(source, turn, into)
            }
            Err(fault) => Err(self.stop(fault)),
        }
    }

    // Reads the next record, or sees that the input ends.
    #[tactic(auto, unfolding(crate::specs::Formats::next_turn))]
    fn go_on<S: Source>(
        &mut self,
        source: &mut S,
        turn: Turn,
        into: &mut Record,
    ) -> Result<RecordStep, InFault>
        requires few { turn.number + turn.left ≤ 137438953472 }
        requires place { self.old.at ≤ 13 + 33554526 * turn.number }
        ensures told { ReadsNext result (here (records_due turn) self.old.at (S.shown source.old)) (shown_by self.new (S.shown source.new)) into.new }
        ensures passed { IfOk result (λ came. Advances (record { stage = Stage.Next turn; at = self.old.at }) self.new came into.new) }
        ensures points { result ≡ Ok RecordStep.Whole → HasItsPoints into.new }
        ensures stopped { IfErr result (λ fault. self.new.stage ≡ Stage.Stopped fault) }
        ensures done { result ≡ Ok RecordStep.End → self.new.stage ≡ Stage.Ended }
        ensures later { IsLater (S.shown source.old) (S.shown source.new) }
    {
        if turn.left == 0 {
            return match end(source, self.at) {
                Ok(()) => {
                    self.stage = Stage::Ended;
                    Ok(RecordStep::End)
                }
                Err(fault) => Err(self.stop(fault)),
            };
        }
        match fields::record(source, self.at, &turn, into) {
            Ok(behind) => {
                self.at = behind;
                self.stage = Stage::Next(Turn {
                    left: turn.left - 1,
                    number: turn.number + 1,
                });
                Ok(RecordStep::Whole)
            }
            Err(fault) => Err(self.stop(fault)),
        }
    }

    // Stops reading.
    fn stop(&mut self, fault: InFault) -> InFault
        ensures same { result ≡ fault }
        ensures stage { self.new.stage ≡ Stage.Stopped fault }
    {
        self.stage = Stage::Stopped(fault);
        fault
    }
}
