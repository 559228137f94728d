//! A frame under way.
ghost use Rattle.std.specs.Prelude.{◌≡◌, ◌^◌, ◌*◌, ◌+◌, ◌≤◌, true, IfOk, OnOk, length};
ghost use Rattle.std.proofs.Common.{refl};
ghost use Rattle.ht_results.specs.Plans.{begun_by};
ghost use Rattle.ht_frames.specs.Frames.{HasKept, IsOpen, IsWhole, frame_for, results_by, with_tally};
ghost use Rattle.ht_frames.specs.Tallies.{IsAlike};

use crate::kind::{Kind, TogetherKind};
use crate::tally::Tally;
use crate::under_way::{UnderWay, UnderWayTogether};
use crate::whole_frame::WholeFrame;
use ht_feed::Jobs;
use ht_metric::Job;
use std::alloc::{AllocError, Global};
use std::marker::Model;
use std::mem;
use std::thread::Threads;

/// The frame under way, or none: what its jobs so far come to. What is kept of them stands in one list until the frame's last
/// job came; the next frame has its memory, and the tables by which it is decoded.
///
/// With its last job a frame is whole, and none is under way. The whole frame stays here until the next job comes, so that
/// it can be decoded in place or handed over.
#[derive(Drop)]
pub struct Frame<K: Kind> {
    head: K::Head,
    data_sum: u128,
    pilot_sum: u128,
    kept: Vec<K::Value>,
    // The number of jobs that are still to come; 0 where no frame is under way.
    left: u64,
    // Decodes the frames that are whole here.
    decoder: K::Decoder,
}

impl<K: Kind> Model for Frame<K> {
    ghost use Rattle.std.specs.Prelude.{◌≤◌};
    ghost use Rattle.ht_results.specs.Plans.{SoFar};
    ghost use Rattle.ht_frames.specs.Frames.{IsOpen};

    ghost Value = { SoFar K.Head K.Value };

    ghost view = { λ f. record { head = f.head; data_sum = f.data_sum; pilot_sum = f.pilot_sum; labels = f.kept.items; left = f.left } };

    ghost invariant = { λ f. 1 ≤ f.left
        → IsOpen K.plan K.fits (record { head = f.head; data_sum = f.data_sum; pilot_sum = f.pilot_sum; labels = f.kept.items; left = f.left }) };
}

impl<K: Kind> Frame<K> {
    /// No frame is under way. It takes no memory.
    pub fn new(alloc: Global) -> Frame<K>
        ensures { result.left ≡ 0 }
    {
        Frame {
            head: K::no_head(),
            data_sum: 0,
            pilot_sum: 0,
            kept: Vec::new(alloc),
            left: 0,
            decoder: K::decoder(alloc),
        }
    }

    /// How many of its jobs are still to come; 0 where no frame is under way.
    pub fn left(&self) -> u64
        ensures { result ≡ self.now.left }
    {
        self.left
    }

    // Begins the frame whose first job comes with this head. It is called once a frame, and kept out of line.
    #[inline(never)]
    fn begin(&mut self, head: &K::Head) -> Result<(), AllocError>
        ensures begun { OnOk result (self.new ≡ begun_by K.plan (K.begins head.now)) }
        ensures ready { OnOk result (IsOpen K.plan K.fits self.new) }
    {
        let head = K::begin(head);
        self.left = 0;
        self.kept.clear();
        self.kept.resize(K::values(&head), K::none())?;
        self.head = head;
        self.data_sum = 0;
        self.pilot_sum = 0;
        self.left = K::jobs(&head);
        Ok(())
    }

    // Goes on with the frame that is under way, or begins the one with this head. The only error is lack of memory.
    fn enter(&mut self, head: &K::Head) -> Result<(), AllocError>
        ensures entered { OnOk result (self.new ≡ frame_for K.plan K.begins head.now self.old) }
        ensures ready { OnOk result (IsOpen K.plan K.fits self.new) }
    {
        if self.left > 0 {
            return Ok(());
        }
        self.begin(head)
    }

    // Whether these may be the next jobs of the frame that is under way: they were looked up by a head that says the same, and
    // they are no more than are still to come.
    fn fits(&self, tally: &Tally<K>) -> bool
        ensures alike { result ≡ true → IsAlike K.plan tally.now.head self.now.head }
        ensures few { result ≡ true → tally.now.jobs ≤ self.now.left }
    {
        K::alike(&tally.head, &self.head) && u64::from(tally.jobs) <= self.left
    }

    // Takes what jobs of the frame that is under way come to.
    #[inline]
    #[tactic(auto, using(ht_results::proofs::Stretches::length_put_on))]
    fn add(&mut self, tally: &Tally<K>)
        requires ready { IsOpen K.plan K.fits self.old }
        requires few { tally.now.jobs ≤ self.old.left }
        requires bounded { tally.now.data_sum + tally.now.pilot_sum ≤ tally.now.jobs * 2 ^ 66 }
        requires long { length tally.now.places ≡ length tally.now.values.items }
        ensures added { self.new ≡ with_tally tally.now.jobs tally.now.data_sum tally.now.pilot_sum tally.now.places tally.now.values.items self.old }
        ensures kept { HasKept K.plan K.fits self.new }
    {
        self.left -= u64::from(tally.jobs);
        self.data_sum += tally.data_sum;
        self.pilot_sum += tally.pilot_sum;
        tally.places.put_into(&tally.values, &mut self.kept);
    }

    // What the whole frame comes to, decoded in memory that the next frame uses again.
    fn decoded(&mut self, alloc: Global) -> Result<K::Result, AllocError>
        requires whole { IsWhole K.plan K.fits self.old }
        ensures value { IfOk result (λ r. r ≡ K.result_of self.old) }
        ensures same { self.new ≡ self.old }
    {
        K::decode(
            alloc,
            &self.head,
            self.data_sum,
            self.pilot_sum,
            &self.kept,
            &mut self.decoder,
        )
    }
}

/// A frame whose last job came, by itself.
#[derive(Drop)]
pub struct Whole<K: Kind> {
    frame: Frame<K>,
}

impl<K: Kind> Model for Whole<K> {
    ghost use Rattle.ht_results.specs.Plans.{SoFar};
    ghost use Rattle.ht_frames.specs.Frames.{IsWhole};

    ghost Value = { SoFar K.Head K.Value };

    ghost view = { λ w. w.frame };

    ghost invariant = { λ w. IsWhole K.plan K.fits w.frame };
}

impl<K: Kind> WholeFrame for Whole<K> {
    type Result = K::Result;

    type Decoder = K::Decoder;

    ghost result_of = { K.result_of };

    ghost length_of = { λ w. K.length_of w.head };

    fn octets(&self) -> u16 {
        K::octets(&self.frame.head)
    }

    fn decoder(alloc: Global) -> K::Decoder {
        K::decoder(alloc)
    }

    fn decode(&self, alloc: Global, decoder: &mut K::Decoder) -> Result<K::Result, AllocError> {
        let f = &self.frame;
        K::decode(alloc, &f.head, f.data_sum, f.pilot_sum, &f.kept, decoder)
    }

    #[tactic(auto, using(crate::proofs::Tallying::same_result))]
    fn same(&self, other: &Whole<K>) -> bool {
        let (f, g) = (&self.frame, &other.frame);
        f.left == g.left
            && f.data_sum == g.data_sum
            && f.pilot_sum == g.pilot_sum
            && K::same_head(&f.head, &g.head)
            && K::same_kept(&f.kept, &g.kept)
    }
}

impl<K: TogetherKind> Whole<K> {
    /// Its result, where another thread may help. The only error is lack of memory.
    pub(crate) fn together<R: Threads>(
        &self,
        rt: &R,
        alloc: Global,
    ) -> Result<K::Result, AllocError>
        ensures { IfOk result (λ r. r ≡ K.result_of self.now) }
    {
        let f = &self.frame;
        K::decode_together(rt, alloc, &f.head, f.data_sum, f.pilot_sum, &f.kept)
    }
}

impl<K: Kind> UnderWay for Frame<K> {
    type Head = K::Head;

    type Answer = Tally<K>;

    type Whole = Whole<K>;

    ghost results = { results_by K.plan K.begins K.result_of };

    ghost is_whole = { IsWhole K.plan K.fits };

    ghost comes_to = { K.result_of };

    /// The tally of no job isn't known to fit, nor one that was made by a head that isn't alike, nor one of more jobs than the
    /// frame has still to come.
    fn take<J: Jobs>(
        &mut self,
        head: &K::Head,
        _block: &J,
        tally: &Tally<K>,
    ) -> Result<Option<bool>, AllocError> {
        if tally.jobs == 0 {
            return Ok(None);
        }
        self.enter(head)?;
        if !self.fits(tally) {
            return Ok(None);
        }
        self.add(tally);
        Ok(Some(self.left() == 0))
    }

    fn size<J: Jobs>(tally: &Tally<K>, _block: &J) -> u16 {
        tally.jobs
    }

    fn take_job(&mut self, alloc: Global, head: &K::Head, job: &Job) -> Result<bool, AllocError> {
        self.enter(head)?;
        let tally = Tally::<K>::of_job(alloc, &self.head, job)?;
        self.add(&tally);
        Ok(self.left() == 0)
    }

    fn decode(&mut self, alloc: Global) -> Result<K::Result, AllocError> {
        self.decoded(alloc)
    }

    fn leave(&mut self, alloc: Global) -> Whole<K> {
        Whole {
            frame: mem::replace(self, Frame::new(alloc)),
        }
    }

    ghost none = { λ f. refl };
}

impl<K: TogetherKind> UnderWayTogether for Frame<K> {
    fn decode_together<R: Threads>(
        whole: &Whole<K>,
        rt: &R,
        alloc: Global,
    ) -> Result<K::Result, AllocError> {
        whole.together(rt, alloc)
    }
}
