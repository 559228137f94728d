//! Frames that go to a worker and come back.
ghost use Rattle.std.specs.Prelude.{◌≡◌, IfOk};

use crate::whole_frame::WholeFrame;
use std::alloc::{AllocError, Global};
use std::marker::Model;
use std::sync::Arc;

/// A whole frame under a number of its own, and what it came to once a worker has decoded it. Contracts see the frame.
#[derive(Drop)]
pub(crate) struct Errand<W: WholeFrame> {
    number: u64,
    frame: Arc<W, Global>,
    outcome: Option<Result<W::Result, AllocError>>,
}

impl<W: WholeFrame> Model for Errand<W> {
    ghost use Rattle.std.specs.Prelude.{◌≡◌, IfOk, IfSome};
    ghost use Rattle.std.specs.Arc.{arc_value};

    ghost Value = { W };

    ghost view = { λ e. arc_value e.frame };

    ghost invariant = { λ e. IfSome e.outcome (λ outcome. IfOk outcome (λ r. r ≡ W.result_of (arc_value e.frame))) };
}

impl<W: WholeFrame + Drop> Errand<W> {
    /// A frame that no worker has decoded.
    pub(crate) fn new(number: u64, frame: Arc<W, Global>) -> Errand<W> {
        Errand {
            number,
            frame,
            outcome: None,
        }
    }

    /// The number of the frame.
    pub(crate) fn number(&self) -> u64 {
        self.number
    }

    /// Decodes the frame.
    pub(crate) fn decoded(self, alloc: Global, decoder: &mut W::Decoder) -> Errand<W> {
        let Errand {
            number,
            frame,
            outcome: _,
        } = self;
        let outcome = Some(frame.decode(alloc, decoder));
        Errand {
            number,
            frame,
            outcome,
        }
    }

    /// What this frame came to, where it is known to be the one that was decoded, or else lack of memory.
    pub(crate) fn outcome_of(self, frame: &W) -> Result<W::Result, AllocError>
        ensures { IfOk result (λ r. r ≡ W.result_of frame.now) }
    {
        let Errand {
            number: _,
            frame: decoded,
            outcome,
        } = self;
        match outcome {
            Some(outcome) if decoded.same(frame) => outcome,
            _ => Err(AllocError),
        }
    }
}
