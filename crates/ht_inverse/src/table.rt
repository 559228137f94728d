//! Where the labels of a symbol have the coded bits of all encoders.
ghost use Rattle.std.specs.Prelude.{◌≡◌, ◌==◌, ◌↔◌, ◌-◌, ◌*◌, ◌^◌, ◌≤◌, IfOk, IsTrue, if◌then◌else◌, length};
ghost use Rattle.ht_rate.specs.Rates.{encoders_of, pattern_of, steps_of};
ghost use Rattle.ht_inverse.specs.Decoding.{decoded_frame};
ghost use Rattle.ht_inverse.specs.Received.{labels_in_frame};
ghost use Rattle.ht_inverse.specs.Shares.{codeword_of, no_codeword};
ghost use Rattle.ht_inverse.specs.Tables.{IsSecond};
ghost use Rattle.ht_inverse.specs.Words.{HasSteps, opened};

use crate::bits::frame_of;
use crate::decoded::Decoded;
use crate::frame_labels::FrameLabels;
use crate::share::Share;
use ht_clean::PackedInput;
use ht_rate::Rate;
use std::alloc::{AllocError, Global};
use std::thread;
use std::thread::Threads;

/// The shares of a rate's encoders, where some subcarriers are erased. It serves every frame of this rate with these
/// erasures.
#[derive(Drop)]
pub struct Table {
    /// The share of encoder 0.
    pub first: Share,
    /// The share of encoder 1, where the rate has one.
    pub second: Option<Share>,
    pub ghost encoder: { first.encoder ≡ 0 },
    pub ghost matched: { IsSecond first.rate first.erased second },
}

// The share of encoder 1, where the rate has one.
fn second_share(alloc: Global, rate: &Rate, erased: u128) -> Result<Option<Share>, AllocError>
    ensures { IfOk result (λ second. IsSecond rate.now erased second) }
{
    if rate.encoders() == 2 {
        Ok(Some(Share::of(alloc, rate, erased, 1)?))
    } else {
        Ok(None)
    }
}

impl Table {
    /// The table of a rate, where these subcarriers are erased. The only refusal is lack of memory.
    pub fn of(alloc: Global, rate: &Rate, erased: u128) -> Result<Table, AllocError>
        ensures rate { IfOk result (λ table. table.first.rate ≡ rate.now) }
        ensures erased { IfOk result (λ table. table.first.erased ≡ erased) }
    {
        let first = Share::of(alloc, rate, erased, 0)?;
        let second = second_share(alloc, rate, erased)?;
        Ok(Table { first, second })
    }

    /// Whether this is the table of a rate with these erasures.
    pub fn serves(&self, rate: &Rate, erased: u128) -> bool
        ensures { IsTrue result ↔ ((self.now.first.rate ≡ rate.now) × (self.now.first.erased ≡ erased)) }
    {
        self.first.rate.same(rate) && self.first.erased == erased
    }

    // The codeword of encoder 1, or an empty one where there is none.
    fn second_codeword(&self, alloc: Global, frame: &FrameLabels) -> Result<PackedInput, AllocError>
        requires { length frame.now.labels.now ≡ labels_in_frame self.now.first.rate frame.now.octets }
        ensures value { IfOk result (λ p.
            opened (pattern_of self.now.first.rate) ((encoders_of self.now.first.rate - 1) * steps_of self.now.first.rate frame.now.octets) p
            ≡ (if encoders_of self.now.first.rate == 2
            then codeword_of self.now.first.rate frame.now.octets self.now.first.erased frame.now.labels.now 1 else no_codeword)) }
        ensures steps { IfOk result (λ p.
            HasSteps self.now.first.rate ((encoders_of self.now.first.rate - 1) * steps_of self.now.first.rate frame.now.octets) p) }
        ensures few { IfOk result (λ p. p.distance ≤ 2 ^ 30) }
    {
        match &self.second {
            Some(share) => share.codeword(alloc, frame),
            None => Ok(PackedInput {
                words: Vec::new(alloc),
                distance: 0,
            }),
        }
    }

    /// Decodes a frame. The only refusal is lack of memory.
    pub(crate) fn decode(&self, alloc: Global, frame: &FrameLabels) -> Result<Decoded, AllocError>
        requires { length frame.now.labels.now ≡ labels_in_frame self.now.first.rate frame.now.octets }
        ensures { IfOk result (λ decoded. decoded
            ≡ decoded_frame self.now.first.rate frame.now.octets self.now.first.erased frame.now.labels.now) }
    {
        let first = self.first.codeword(alloc, frame)?;
        let second = self.second_codeword(alloc, frame)?;
        frame_of(alloc, &self.first.rate, frame.octets, first, second)
    }

    /// Decodes a frame as [`Table::decode`] does, and two codewords in two threads, where a thread can be made.
    pub(crate) fn decode_together<R: Threads>(
        &self,
        rt: &R,
        alloc: Global,
        frame: &FrameLabels,
    ) -> Result<Decoded, AllocError>
        requires { length frame.now.labels.now ≡ labels_in_frame self.now.first.rate frame.now.octets }
        ensures { IfOk result (λ decoded. decoded
            ≡ decoded_frame self.now.first.rate frame.now.octets self.now.first.erased frame.now.labels.now) }
    {
        if self.second.is_none() {
            return self.decode(alloc, frame);
        }
        let octets = frame.octets;
        let labels = frame.labels;
        let (first, second) = thread::join(
            rt,
            || -> Result<PackedInput, AllocError>
                requires { (1 ≤ octets) × (length labels.now ≡ labels_in_frame self.now.first.rate octets) }
                ensures value { IfOk result (λ p. opened (pattern_of self.entry.now.first.rate) (steps_of self.entry.now.first.rate octets) p
                    ≡ codeword_of self.entry.now.first.rate octets self.entry.now.first.erased labels.entry.now 0) }
                ensures steps { IfOk result (λ p. HasSteps self.entry.now.first.rate (steps_of self.entry.now.first.rate octets) p) }
                ensures few { IfOk result (λ p. p.distance ≤ 2 ^ 30) }
            { self.first.codeword(alloc, &FrameLabels { octets, labels }) },
            || -> Result<PackedInput, AllocError>
                requires { (1 ≤ octets) × (length labels.now ≡ labels_in_frame self.now.first.rate octets) }
                ensures value { IfOk result (λ p. opened (pattern_of self.entry.now.first.rate)
                    ((encoders_of self.entry.now.first.rate - 1) * steps_of self.entry.now.first.rate octets) p
                    ≡ (if encoders_of self.entry.now.first.rate == 2
                    then codeword_of self.entry.now.first.rate octets self.entry.now.first.erased labels.entry.now 1 else no_codeword)) }
                ensures steps { IfOk result (λ p. HasSteps self.entry.now.first.rate
                    ((encoders_of self.entry.now.first.rate - 1) * steps_of self.entry.now.first.rate octets) p) }
                ensures few { IfOk result (λ p. p.distance ≤ 2 ^ 30) }
            { self.second_codeword(alloc, &FrameLabels { octets, labels }) },
        );
        frame_of(alloc, &self.first.rate, octets, first?, second?)
    }
}
