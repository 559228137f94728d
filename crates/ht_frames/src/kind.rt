//! Kinds of frames.
ghost use Rattle.std.specs.Prelude.{◌≡◌, ◌*◌, ◌^◌, ◌<◌, ◌≤◌, ◌++◌, ℕ, max, length, IfOk, IsTrue, OnOk};
ghost use Rattle.ht_metric.specs.Jobs.{near};
ghost use Rattle.ht_results.specs.Plans.{Plan, SoFar, jobs_by, place_by};
ghost use Rattle.ht_frames.specs.Frames.{values_in};
ghost use Rattle.ht_frames.specs.Tallies.{IsAlike, kept_as};

use ht_feed::Gate;
use ht_metric::Job;
use ht_rate::Carrier;
use std::alloc::{AllocError, Global};
use std::thread::Threads;

/// A kind of frames: what is kept of their jobs, and what a frame comes to. Contracts see it as a plan.
///
/// Nothing of a kind is a value: all of its calls are of the type.
pub trait Kind {
    /// The head of a frame.
    type Head: Copy + Drop;

    /// What is kept of a job on a data subcarrier, as often as the plan says.
    type Value: Copy + Drop;

    /// What a frame comes to.
    type Result: Drop;

    /// What decodes frames, one after another, and keeps memory and tables from one to the next.
    type Decoder: Drop;

    /// Where the jobs of a frame stand, and what is kept of each.
    ghost plan: { Plan Self.Head Self.Value };

    /// The head with which a frame begins whose first job comes with this one.
    ghost begins: { Self.Head → Self.Head };

    /// The heads with which frames begin.
    ghost fits: { Self.Head → Type 0 };

    /// What a whole frame comes to.
    ghost result_of: { SoFar Self.Head Self.Value → Self.Result };

    /// The number of a frame's octets.
    ghost length_of: { Self.Head → ℕ };

    /// The number of a frame's octets. By this it is judged whether its decoding is worth the way to a worker.
    fn octets(head: &Self::Head) -> u16
        ensures { result ≡ length_of head.now };

    /// `true` only where both are the same head.
    fn same_head(head: &Self::Head, other: &Self::Head) -> bool
        ensures { IsTrue result → head.now ≡ other.now };

    /// `true` only where the same is kept in both.
    fn same_kept(kept: &[Self::Value], other: &[Self::Value]) -> bool
        ensures { IsTrue result → kept.now ≡ other.now };

    /// `true` only where both heads say the same of their jobs, as those of frames of one rate do.
    fn alike(head: &Self::Head, other: &Self::Head) -> bool
        ensures { IsTrue result → IsAlike plan head.now other.now };

    /// A head that stands for the one that came last as long as none has come. Nothing is said of what it holds.
    fn no_head() -> Self::Head;

    /// What stands where nothing was kept.
    fn none() -> Self::Value
        ensures { result ≡ plan.none };

    /// The head with which a frame begins whose first job comes with this one.
    fn begin(head: &Self::Head) -> Self::Head
        ensures value { result ≡ begins head.now }
        ensures fits { fits result };

    /// How many values are kept of a job on a data subcarrier.
    fn width(head: &Self::Head) -> u8
        ensures { result ≡ plan.width head.now };

    /// How many values are kept of a frame.
    fn values(head: &Self::Head) -> usize
        requires { fits head.now }
        ensures { result ≡ values_in plan head.now };

    /// How many jobs a frame has, one at least.
    fn jobs(head: &Self::Head) -> u64
        requires { fits head.now }
        ensures value { result ≡ max 1 (jobs_by plan head.now) }
        ensures few { result ≤ 2298924 };

    /// What a subcarrier carries.
    fn carries(head: &Self::Head, carrier: u8) -> Carrier
        ensures { result ≡ plan.kind head.now carrier };

    /// The place in a frame of the first value that is kept of the job at a symbol and a data subcarrier.
    fn place(head: &Self::Head, symbol: u32, m: u8) -> usize
        ensures value { result ≡ place_by plan head.now symbol m }
        ensures bound { result < 2 ^ 63 };

    /// What is found for a job of a frame with this head, between the two calls of a gate, which get its number: the squared
    /// distance of its first nearest vector. What is kept of it goes behind the others, where its subcarrier carries this,
    /// and nothing of a pilot. The only error is lack of memory.
    fn find<G: Gate>(
        head: &Self::Head,
        job: &Job,
        carrier: Carrier,
        gate: &G,
        values: &mut Vec<Self::Value>,
    ) -> Result<u128, AllocError>
        ensures distance { IfOk result (λ d. d ≡ (near job.now).distance) }
        ensures below { IfOk result (λ d. d < 2 ^ 66) }
        ensures kept { OnOk result (values.new.items ≡ values.old.items ++ kept_as plan head.now job.now carrier) };

    /// A decoder that has seen no frame. It takes no memory.
    fn decoder(alloc: Global) -> Self::Decoder;

    /// What a whole frame comes to, from its sums and what was kept, decoded in this thread. The only error is lack of
    /// memory.
    fn decode(
        alloc: Global,
        head: &Self::Head,
        data_sum: u128,
        pilot_sum: u128,
        kept: &[Self::Value],
        decoder: &mut Self::Decoder,
    ) -> Result<Self::Result, AllocError>
        requires fits { fits head.now }
        requires kept { length kept.now ≡ values_in plan head.now }
        ensures { IfOk result (λ r. r ≡ result_of (record { head = head.now; data_sum = data_sum; pilot_sum = pilot_sum; labels = kept.now; left = 0 })) };
}

/// A kind whose frames can be decoded where another thread may help. It stands apart, so that what receives in one thread
/// reaches no other.
pub trait TogetherKind: Kind {
    /// Does as [`Kind::decode`], and another thread may help.
    fn decode_together<R: Threads>(
        _rt: &R,
        alloc: Global,
        head: &Self::Head,
        data_sum: u128,
        pilot_sum: u128,
        kept: &[Self::Value],
    ) -> Result<Self::Result, AllocError>
        requires fits { Self.fits head.now }
        requires kept { length kept.now ≡ values_in Self.plan head.now }
        ensures { IfOk result (λ r. r ≡ Self.result_of (record { head = head.now; data_sum = data_sum; pilot_sum = pilot_sum; labels = kept.now; left = 0 })) }
    {
        let mut decoder = Self::decoder(alloc);
        Self::decode(alloc, head, data_sum, pilot_sum, kept, &mut decoder)
    }
}
