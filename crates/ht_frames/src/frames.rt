//! Frames that workers decode beside their blocks.
ghost use Rattle.std.specs.Prelude.{◌≡◌, IfOk};

use crate::errand::Errand;
use crate::whole_frame::WholeFrame;
use crossbeam_utils::Backoff;
use std::alloc::{AllocError, Global};
use std::collections::VecDeque;
use std::sync::atomic::{AtomicU64, Ordering};
use std::sync::{Arc, Mutex, Wait};

/// Whole frames that wait for a worker, those that were decoded, and decoders that no worker has.
///
/// Of a frame that was decoded its type says that the result is its own, so nothing rests on the order in which frames
/// come back, nor on their numbers: what comes back is compared with what was given.
#[derive(Drop)]
pub struct Frames<W: WholeFrame> {
    alloc: Global,
    // The number of the next frame.
    next: AtomicU64,
    // How many frames wait for a worker. Each worker asks before it looks for a block, and needs no lock for it.
    waiting: AtomicU64,
    // How many frames were given and are still to be taken.
    out: AtomicU64,
    // The octets of these, all together.
    octets: AtomicU64,
    given: Mutex<VecDeque<Errand<W>>>,
    done: Mutex<Vec<Errand<W>>>,
    decoders: Mutex<Vec<W::Decoder>>,
}

// Takes the frame of this number out of others, if it is among them.
fn take_out<W: WholeFrame + Drop>(errands: &mut Vec<Errand<W>>, number: u64) -> Option<Errand<W>> {
    let at = errands.iter().position(|errand| errand.number() == number)?;
    Some(errands.swap_remove(at))
}

impl<W: WholeFrame + Drop> Frames<W> {
    /// No frame is there. It takes no memory.
    pub fn new(alloc: Global) -> Frames<W> {
        Frames {
            alloc,
            next: AtomicU64::new(0),
            waiting: AtomicU64::new(0),
            out: AtomicU64::new(0),
            octets: AtomicU64::new(0),
            given: Mutex::new(VecDeque::new(alloc)),
            done: Mutex::new(Vec::new(alloc)),
            decoders: Mutex::new(Vec::new(alloc)),
        }
    }

    /// Decodes the frame that has waited longest for a worker, if one waits, and answers whether one did. Lack of memory
    /// comes back with the frame.
    pub fn help<R: Wait>(&self, rt: &R) -> bool {
        if self.waiting.load(Ordering::SeqCst) == 0 {
            return false;
        }
        let Some(errand) = self.given.lock(rt).pop_front() else {
            return false;
        };
        self.waiting.fetch_sub(1, Ordering::SeqCst);
        let mut decoder = self.decoder(rt);
        let errand = errand.decoded(self.alloc, &mut decoder);
        // Without memory for it the decoder is dropped.
        let _ = self.decoders.lock(rt).push(decoder);
        // There is room: it was made as the frame was given.
        let _ = self.done.lock(rt).push(errand);
        true
    }

    // A decoder that no worker has, or a new one.
    fn decoder<R: Wait>(&self, rt: &R) -> W::Decoder {
        match self.decoders.lock(rt).pop() {
            Some(decoder) => decoder,
            None => W::decoder(self.alloc),
        }
    }

    /// Gives a frame to the workers, and answers the number under which it comes back. The only error is lack of memory.
    pub(crate) fn give<R: Wait>(&self, rt: &R, frame: Arc<W, Global>) -> Result<u64, AllocError> {
        let number = self.next.fetch_add(1, Ordering::SeqCst);
        let octets = u64::from(frame.octets());
        let out = self.out.load(Ordering::SeqCst).saturating_add(1);
        self.done.lock(rt).reserve(out as usize)?;
        self.given.lock(rt).push_back(Errand::new(number, frame))?;
        self.out.fetch_add(1, Ordering::SeqCst);
        self.octets.fetch_add(octets, Ordering::SeqCst);
        self.waiting.fetch_add(1, Ordering::SeqCst);
        Ok(number)
    }

    /// The number of octets in all frames that were given and not taken yet.
    pub(crate) fn octets(&self) -> u64 {
        self.octets.load(Ordering::SeqCst)
    }

    // The frame of this number, if it was decoded.
    fn take<R: Wait>(&self, rt: &R, number: u64) -> Option<Errand<W>> {
        let mut done = self.done.lock(rt);
        let errand = take_out(&mut done, number)?;
        self.out.fetch_sub(1, Ordering::SeqCst);
        Some(errand)
    }

    /// Waits for what the frame of this number comes to, and meanwhile decodes frames that wait for a worker, of which this
    /// may be one. The only error is lack of memory: a result that isn't known to be this frame's would count as lost so.
    pub(crate) fn outcome_of<R: Wait>(
        &self,
        rt: &R,
        number: u64,
        frame: &W,
    ) -> Result<W::Result, AllocError>
        ensures { IfOk result (λ r. r ≡ W.result_of frame.now) }
    {
        let backoff = Backoff::new();
        for _ in rt.forever() {
            if let Some(errand) = self.take(rt, number) {
                self.octets
                    .fetch_sub(u64::from(frame.octets()), Ordering::SeqCst);
                return errand.outcome_of(frame);
            }
            if self.help(rt) {
                backoff.reset();
            } else {
                backoff.snooze();
            }
        }
        unreachable!()
    }
}
