//! What the jobs of a block come to.
ghost use Rattle.std.specs.Prelude.{◌≡◌, ◌+◌, ◌*◌, ◌^◌, ◌<◌, ◌≤◌, ◌++◌, ◌∷◌, [], List, length, IfOk, OnOk, Some};
ghost use Rattle.ht_metric.specs.Jobs.{JobView};
ghost use Rattle.ht_frames.specs.Tallies.{IsTally};

use crate::kind::Kind;
use ht_feed::{Answer, Gate, InFrame, Jobs, OpenGate, Work, is_hard};
use ht_metric::Job;
use ht_rate::Carrier;
use ht_results::KeptPlaces;
use std::alloc::{AllocError, Global};
use std::marker::PhantomData;

/// What the jobs of a block add to a frame: a worker makes it without the frame, and whoever has the frame adds two numbers
/// and copies values.
#[derive(Drop)]
pub struct Tally<K: Kind> {
    /// The head by which the jobs' subcarriers, values and places were looked up.
    pub head: K::Head,
    /// The number of the jobs.
    pub jobs: u16,
    /// The sum of the squared distances of the nearest vectors, over the jobs on data subcarriers.
    pub data_sum: u128,
    /// The same sum over the jobs on pilot subcarriers.
    pub pilot_sum: u128,
    /// Where the values stand in the frame.
    pub places: KeptPlaces,
    /// What is kept of the jobs on data subcarriers, in the order of the jobs.
    pub values: Vec<K::Value>,
    /// Whether the last job, which speaks for all, was hard.
    pub hard: bool,
}

impl<K: Kind> Answer for Tally<K> {
    ghost answers = { λ t jobs. IsTally K.plan t.head jobs t.jobs t.data_sum t.pilot_sum t.places t.values.items };
}

impl<K: Kind> Tally<K> {
    /// The tally of no job, with memory for the values of this number of jobs. The only error is lack of memory.
    pub fn none(alloc: Global, head: &K::Head, jobs: u16) -> Result<Tally<K>, AllocError>
        ensures head { IfOk result (λ t. t.head ≡ head.now) }
        ensures none { IfOk result (λ t. IsTally K.plan head.now [] t.jobs t.data_sum t.pilot_sum t.places t.values.items) }
    {
        let room = usize::from(jobs) * usize::from(K::width(head));
        Ok(Tally {
            head: *head,
            jobs: 0,
            data_sum: 0,
            pilot_sum: 0,
            places: KeptPlaces::new(alloc),
            values: Vec::with_capacity(alloc, room)?,
            hard: false,
        })
    }

    /// Adds one more job, found between the two calls of a gate, and answers its distance. The only error is lack of memory.
    #[inline(always)]
    pub fn add<G: Gate>(&mut self, job: &Job, gate: &G) -> Result<u128, AllocError>
        requires few { self.old.jobs + 1 < 2 ^ 16 }
        requires bounded { self.old.data_sum + self.old.pilot_sum ≤ self.old.jobs * 2 ^ 66 }
        requires long { length self.old.places ≡ length self.old.values.items }
        ensures head { OnOk result (self.new.head ≡ self.old.head) }
        ensures added { OnOk result ((jobs : List JobView)
            → IsTally K.plan self.old.head jobs self.old.jobs self.old.data_sum self.old.pilot_sum self.old.places self.old.values.items
            → IsTally K.plan self.old.head (jobs ++ job.now ∷ []) self.new.jobs self.new.data_sum self.new.pilot_sum self.new.places self.new.values.items) }
        ensures long { OnOk result (length self.new.places ≡ length self.new.values.items) }
    {
        let place = job.place();
        let carrier = K::carries(&self.head, place.carrier);
        let behind = self.values.len();
        let distance = K::find(&self.head, job, carrier, gate, &mut self.values)?;
        self.jobs += 1;
        match carrier {
            Carrier::Data(m) => {
                let at = K::place(&self.head, place.symbol, m);
                self.places.add(at, self.values.len() - behind)?;
                self.data_sum += distance;
            }
            Carrier::Pilot(_) => {
                self.pilot_sum += distance;
            }
        }
        Ok(distance)
    }

    /// The tally of one job of a frame with this head. The only error is lack of memory.
    pub(crate) fn of_job(alloc: Global, head: &K::Head, job: &Job) -> Result<Tally<K>, AllocError>
        ensures head { IfOk result (λ t. t.head ≡ head.now) }
        ensures is { IfOk result (λ t. IsTally K.plan head.now (job.now ∷ []) t.jobs t.data_sum t.pilot_sum t.places t.values.items) }
    {
        let mut tally = Tally::none(alloc, head, 1)?;
        tally.add(job, &OpenGate)?;
        Ok(tally)
    }
}

/// What the jobs of a block come to, which are of a frame with this head, each found between the two calls of a gate.
/// Memory is taken once a block where its values follow one another. The only error is lack of memory.
pub fn tally_of<K: Kind, B: Jobs, G: Gate>(
    alloc: Global,
    head: &K::Head,
    block: &B,
    gate: &G,
) -> Result<Tally<K>, AllocError>
    requires few { length (B.jobs block.now) < 2 ^ 16 }
    ensures head { IfOk result (λ t. t.head ≡ head.now) }
    ensures is { IfOk result (λ t. IsTally K.plan head.now (B.jobs block.now) t.jobs t.data_sum t.pilot_sum t.places t.values.items) }
{
    let size = block.size();
    let mut tally = Tally::<K>::none(alloc, head, size)?;
    let mut hard = false;
    for at in 0..size {
        let job = block.job(at);
        let distance = tally.add(&job, gate)?;
        hard = at + 1 == size && is_hard(&job, distance);
    }
    Ok(Tally { hard, ..tally })
}

/// Makes the tally of any block that knows its frame, each job run between the two calls of a gate.
#[derive(Drop)]
pub struct TallyWork<'g, K, G> {
    alloc: Global,
    gate: &'g G,
    kind: PhantomData<K>,
}

impl<'g, K, G> TallyWork<'g, K, G> {
    /// A work that takes memory for values here, and calls this before and after each job.
    pub fn new(alloc: Global, gate: &'g G) -> TallyWork<'g, K, G> {
        TallyWork {
            alloc,
            gate,
            kind: PhantomData,
        }
    }
}

impl<'g, K: Kind, B: InFrame<Head = K::Head>, G: Gate> Work<B> for TallyWork<'g, K, G> {
    type Answer = Tally<K>;

    fn answer_to(&self, block: &B) -> Result<Tally<K>, AllocError> {
        tally_of(self.alloc, block.head(), block, self.gate)
    }

    /// Whether the last job, which speaks for all, was hard.
    fn is_hard(&self, _: &B, tally: &Tally<K>) -> bool {
        tally.hard
    }
}
