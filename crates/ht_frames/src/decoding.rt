//! Whole frames that are being decoded.
ghost use Rattle.std.specs.Prelude.{◌≡◌, IfOk};

use crate::frames::Frames;
use crate::whole_frame::WholeFrame;
use std::alloc::{AllocError, Global};
use std::marker::Model;
use std::snapshot::Snapshot;
use std::sync::{Arc, Wait};

/// Where the result of a frame comes from.
#[derive(Drop)]
pub(crate) enum ResultSource<W, T> {
    /// It was given to the workers, under this number.
    Workers(u64, Arc<W, Global>),
    /// It is there.
    Done(Result<T, AllocError>),
}

/// A whole frame whose result is being worked out, or was.
#[derive(Drop)]
pub struct Decoding<W: WholeFrame> {
    frame: Snapshot<W>,
    work: ResultSource<W, W::Result>,
}

impl<W: WholeFrame> Model for Decoding<W> {
    ghost use Rattle.ht_frames.specs.Decoding.{WorksOut};

    ghost Value = { W };

    ghost view = { λ d. d.frame.value };

    ghost invariant = { λ d. WorksOut W.result_of d.frame.value d.work };
}

impl<W: WholeFrame + Drop> Decoding<W> {
    /// Gives a frame to the workers. The only error is lack of memory.
    pub(crate) fn apart<R: Wait>(
        rt: &R,
        alloc: Global,
        frames: &Frames<W>,
        frame: W,
    ) -> Result<Decoding<W>, AllocError>
        ensures { IfOk result (λ d. d ≡ frame) }
    {
        let seen = Snapshot::of(&frame);
        let frame = Arc::new(alloc, frame)?;
        let number = frames.give(rt, Arc::try_clone(&frame)?)?;
        Ok(Decoding {
            frame: seen,
            work: ResultSource::Workers(number, frame),
        })
    }

    /// A frame that was decoded.
    pub(crate) fn done(frame: W, outcome: Result<W::Result, AllocError>) -> Decoding<W>
        requires { IfOk outcome (λ r. r ≡ W.result_of frame) }
        ensures { result ≡ frame }
    {
        let seen = Snapshot::of(&frame);
        let work = ResultSource::Done(outcome);
        Decoding { frame: seen, work }
    }

    /// Whether its result is there without a wait.
    pub(crate) fn is_done(&self) -> bool {
        matches!(self.work, ResultSource::Done(_))
    }

    /// Waits for its result. The only error is lack of memory.
    pub(crate) fn finish<R: Wait>(self, rt: &R, frames: &Frames<W>) -> Result<W::Result, AllocError>
        ensures { IfOk result (λ r. r ≡ W.result_of self) }
    {
        let Decoding { frame: _, work } = self;
        match work {
            ResultSource::Workers(number, frame) => frames.outcome_of(rt, number, &frame),
            ResultSource::Done(outcome) => outcome,
        }
    }
}
