//! Frames under way, as those see them who book results.
ghost use Rattle.std.specs.Prelude.{◌≡◌, ◌++◌, ◌∷◌, [], true, List, length, IfNone, IfOk, IfSome};
ghost use Rattle.ht_feed.specs.Dues.{due_of, headed_due};
ghost use Rattle.ht_feed.specs.Items.{Headed, headed_of};
ghost use Rattle.ht_frames.specs.Gathering.{finished};

use crate::whole_frame::WholeFrame;
use ht_feed::{Answer, Jobs};
use ht_metric::Job;
use std::alloc::{AllocError, Global};
use std::thread::Threads;

/// What is kept of the jobs of frames while they come: one frame is under way, or none. The one impl is that of
/// [`Frame`](crate::Frame), for all kinds of frames: what is lent or sent to a thread has to be a type, or a parameter with
/// the bound, and not a type made of a kind's.
///
/// With its last job a frame is whole, and none is under way. The whole frame stays here until the next job comes, so
/// that it can be decoded in place or handed over.
pub trait UnderWay {
    /// The head of a frame.
    type Head: Copy + Drop;

    /// What the jobs of a block come to without the frame.
    type Answer: Answer + Drop;

    /// A frame whose last job came, by itself.
    type Whole: WholeFrame + Drop;

    /// The results of the frames whose last jobs are among these, which come one after another.
    ghost results: { Self → List (Headed Self.Head) → List Self.Whole.Result };

    /// A whole frame is here.
    ghost is_whole: { Self → Type 0 };

    /// The result of the whole frame that is here.
    ghost comes_to: { Self → Self.Whole.Result };

    /// Takes what the jobs of a block come to, whose frame has this head, where that is known to fit the frame that is under way
    /// or begins here: the answer is then whether its last job was the frame's last. Where it isn't known to fit, its jobs are
    /// still to be taken, one by one. The only error is lack of memory, and then nothing is said of the results.
    fn take<J: Jobs>(
        &mut self,
        head: &Self::Head,
        block: &J,
        answer: &Self::Answer,
    ) -> Result<Option<bool>, AllocError>
        requires right { Self.Answer.answers answer.now (J.jobs block.now) }
        ensures results { IfOk result (λ given. IfSome given (λ last. (more : List (Headed Self.Head))
            → results self.old (headed_due (due_of head.now (J.jobs block.now)) ++ more)
            ≡ finished last (comes_to self.new) ++ results self.new more)) }
        ensures whole { IfOk result (λ given. IfSome given (λ last. last ≡ true → is_whole self.new)) }
        ensures none { IfOk result (λ given. IfNone given ((more : List (Headed Self.Head))
            → results self.new (headed_due (due_of head.now (J.jobs block.now)) ++ more)
            ≡ results self.old (headed_due (due_of head.now (J.jobs block.now)) ++ more))) };

    /// The number of a block's jobs.
    fn size<J: Jobs>(answer: &Self::Answer, block: &J) -> u16
        requires right { Self.Answer.answers answer.now (J.jobs block.now) }
        ensures { result ≡ length (J.jobs block.now) };

    /// Finds a job of the frame that is under way or, where none is, of the one that begins with this head, and takes it. The
    /// answer is whether it was the frame's last. The only error is lack of memory, and then nothing is said of the results.
    fn take_job(&mut self, alloc: Global, head: &Self::Head, job: &Job) -> Result<bool, AllocError>
        ensures results { IfOk result (λ last. (more : List (Headed Self.Head))
            → results self.old (headed_of head.now job.now ∷ more) ≡ finished last (comes_to self.new) ++ results self.new more) }
        ensures whole { IfOk result (λ last. last ≡ true → is_whole self.new) };

    /// The result of the whole frame, decoded here, in memory that the next frame uses again. The only error is lack of
    /// memory.
    fn decode(&mut self, alloc: Global) -> Result<<Self::Whole as WholeFrame>::Result, AllocError>
        requires whole { is_whole self.old }
        ensures value { IfOk result (λ r. r ≡ comes_to self.old) }
        ensures kept { (more : List (Headed Self.Head)) → results self.new more ≡ results self.old more };

    /// Hands the whole frame over, to be decoded elsewhere.
    fn leave(&mut self, alloc: Global) -> Self::Whole
        requires whole { is_whole self.old }
        ensures value { Self.Whole.result_of result ≡ comes_to self.old }
        ensures kept { (more : List (Headed Self.Head)) → results self.new more ≡ results self.old more };

    /// Where no job comes, there are no results.
    ghost none: { (a : Self) → results a [] ≡ [] };
}

/// Frames under way that can be decoded where another thread may help. It stands apart, so that what receives in one thread
/// reaches no other.
pub trait UnderWayTogether: UnderWay {
    /// The result of a whole frame. The only error is lack of memory.
    fn decode_together<R: Threads>(
        whole: &Self::Whole,
        rt: &R,
        alloc: Global,
    ) -> Result<<Self::Whole as WholeFrame>::Result, AllocError>
        ensures { IfOk result (λ r. r ≡ Self.Whole.result_of whole.now) };
}
