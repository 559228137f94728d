//! Where the labels of a symbol have an encoder's coded bits, and what the labels of a frame say of them.
ghost use Rattle.std.specs.Prelude.{◌≡◌, ◌+◌, ◌-◌, ◌*◌, ◌^◌, ◌<◌, ◌≤◌, ℕ, true, false, IfOk};
ghost use Rattle.std.specs.Prelude.{length, map, vec_capacity};
ghost use Rattle.std.specs.List.{range_with_len};
ghost use Rattle.ht_rate.specs.Rates.{encoders_of, label_bits_of, pattern_of, steps_of, symbols_of};
ghost use Rattle.ht_conv.specs.Puncturing.{sent_count};
ghost use Rattle.ht_parse.specs.Streams.{share_of};
ghost use Rattle.ht_viterbi.specs.Inputs.{tail};
ghost use Rattle.ht_viterbi.specs.Packed.{packed};
ghost use Rattle.ht_viterbi.specs.Received.{known_of};
ghost use Rattle.ht_inverse.specs.Received.{labels_in_frame, labels_per_symbol, received_of, values_of};
ghost use Rattle.ht_inverse.specs.Words.{HasSteps, opened};
ghost use Rattle.ht_inverse.specs.Shares.{AreLost, HasSymbols, IsNearest, codeword_of, known_at, label_bit_of, label_bits_to};

use crate::erasures::lost_carriers;
use crate::frame_labels::FrameLabels;
use crate::label_bit::LabelBit;
use crate::label_values::{Decisions, LabelValues, Marks, Values};
use crate::words::packed_words;
use ht_clean::{PackedInput, decode_words};
use ht_conv::sent;
use ht_landing::Landing;
use ht_rate::Rate;
use ht_viterbi::{ReceivedBit, decode_received};
use std::alloc::{AllocError, Global};

/// Where the labels of a symbol have the coded bits of an encoder's share, in their order.
///
/// It holds for every symbol, so a coded bit of a frame is found without a division.
#[derive(Drop)]
pub struct Share {
    /// The rate.
    pub rate: Rate,
    /// Bit c is set where subcarrier c is erased.
    pub erased: u128,
    /// The encoder, 0 or 1.
    pub encoder: u8,
    pub(crate) places: Vec<LabelBit>,
    pub(crate) ghost there: { encoder < encoders_of rate },
    pub(crate) ghost places_are: { places.items ≡ label_bits_to rate erased encoder (share_of rate) },
}

// The number of coded bits that a turn of the loop over a symbol takes.
const RUN: usize = 8;

// N_CBPS / N_ES, the coded bits of an encoder in a symbol.
#[tactic(auto, unfolding(ht_parse::specs::Streams::share_of))]
fn share_size(rate: &Rate) -> u32
    ensures value { result ≡ share_of rate.now }
    ensures high { result ≤ 2592 }
{
    u32::from(rate.coded_bits()) / u32::from(rate.encoders())
}

// The label in which the bit with this number of bits behind it alone is 1.
fn mask_of(shift: u8) -> u8
    requires { shift < 8 }
    ensures { result ≡ 2 ^ shift }
{
    1 << shift
}

// Where coded bit i stands.
fn place_of_bit(rate: &Rate, lost: &[bool; 108], encoder: u8, i: u32) -> LabelBit
    requires { encoder < encoders_of rate.now }
    ensures { (erased : ℕ) → AreLost rate.now erased lost.now → result ≡ label_bit_of rate.now erased encoder i }
{
    let landing = Landing::of(rate, encoder, i);
    let shift = rate.label_bits() - 1 - landing.bit;
    LabelBit {
        label: u16::from(landing.carrier) * u16::from(rate.streams())
            + u16::from(landing.stream - 1),
        shift,
        mask: mask_of(shift),
        lost: lost[usize::from(landing.carrier)],
    }
}

// Where the first coded bits of a share stand.
fn first_places(
    alloc: Global,
    rate: &Rate,
    erased: u128,
    encoder: u8,
    count: u32,
) -> Result<Vec<LabelBit>, AllocError>
    requires { encoder < encoders_of rate.now }
    ensures { IfOk result (λ places. places.items ≡ label_bits_to rate.now erased encoder count) }
{
    let lost = lost_carriers(rate, erased);
    let mut places = Vec::with_capacity(alloc, count as usize)?;
    for i in 0..count {
        places.push_reserved(place_of_bit(rate, &lost, encoder, i));
    }
    Ok(places)
}

impl Share {
    /// The share of an encoder at a rate, where these subcarriers are erased. The only refusal is lack of memory.
    pub fn of(alloc: Global, rate: &Rate, erased: u128, encoder: u8) -> Result<Share, AllocError>
        requires { encoder < encoders_of rate.now }
        ensures rate { IfOk result (λ share. share.rate ≡ rate.now) }
        ensures erased { IfOk result (λ share. share.erased ≡ erased) }
        ensures encoder { IfOk result (λ share. share.encoder ≡ encoder) }
    {
        let places = first_places(alloc, rate, erased, encoder, share_size(rate))?;
        Ok(Share {
            rate: *rate,
            erased,
            encoder,
            places,
        })
    }

    // What is known of the coded bit at a place of a symbol's share.
    #[inline(always)]
    fn bit<L: LabelValues>(
        &self,
        places: &[LabelBit],
        labels: &L,
        per_symbol: usize,
        symbol: usize,
        place: usize,
        symbols: usize,
    ) -> L::Value
        requires places { places.now ≡ self.now.places.items }
        requires labels { HasSymbols (L.has labels.now) self.now.rate self.now.erased self.now.encoder symbols }
        requires few { symbols ≤ 2 ^ 20 }
        requires per_symbol { per_symbol ≡ labels_per_symbol self.now.rate }
        requires symbol { symbol < symbols }
        requires place { place < share_of self.now.rate }
        ensures { result ≡ known_at (L.known labels.now) self.now.rate self.now.erased self.now.encoder (symbol * share_of self.now.rate + place) }
    {
        let place = places[place];
        labels.known(symbol * per_symbol + usize::from(place.label), place)
    }

    // Appends what is known of some of a symbol's coded bits, which come next.
    #[inline(always)]
    fn push_some<L: LabelValues>(
        &self,
        bits: &mut Vec<L::Value>,
        labels: &L,
        symbols: usize,
        symbol: usize,
        from: usize,
        count: usize,
    )
        requires labels { HasSymbols (L.has labels.now) self.now.rate self.now.erased self.now.encoder symbols }
        requires few { symbols ≤ 2 ^ 20 }
        requires share { from + count ≤ share_of self.now.rate }
        requires within { symbol * share_of self.now.rate + (from + count) ≤ symbols * share_of self.now.rate }
        requires room { symbol * share_of self.now.rate + (from + count) ≤ vec_capacity bits.old }
        requires so_far { bits.old.items
            ≡ map (known_at (L.known labels.now) self.now.rate self.now.erased self.now.encoder)
            (range_with_len 0 (symbol * share_of self.now.rate + from)) }
        ensures items { bits.new.items
            ≡ map (known_at (L.known labels.now) self.now.rate self.now.erased self.now.encoder)
            (range_with_len 0 (symbol * share_of self.now.rate + (from + count))) }
        ensures capacity { vec_capacity bits.new ≡ vec_capacity bits.old }
    {
        let places = self.places.as_slice();
        let per_symbol = usize::from(self.rate.data_carriers()) * usize::from(self.rate.streams());
        for k in 0..count {
            bits.push_reserved(self.bit(places, labels, per_symbol, symbol, from + k, symbols));
        }
    }

    // Appends what is known of a symbol's first coded bits, which come next.
    #[inline(always)]
    fn push_symbol<L: LabelValues>(
        &self,
        bits: &mut Vec<L::Value>,
        labels: &L,
        symbols: usize,
        symbol: usize,
        count: usize,
    )
        requires labels { HasSymbols (L.has labels.now) self.now.rate self.now.erased self.now.encoder symbols }
        requires few { symbols ≤ 2 ^ 20 }
        requires share { count ≤ share_of self.now.rate }
        requires within { symbol * share_of self.now.rate + count ≤ symbols * share_of self.now.rate }
        requires room { symbol * share_of self.now.rate + count ≤ vec_capacity bits.old }
        requires so_far { bits.old.items
            ≡ map (known_at (L.known labels.now) self.now.rate self.now.erased self.now.encoder) (range_with_len 0 (symbol * share_of self.now.rate)) }
        ensures items { bits.new.items
            ≡ map (known_at (L.known labels.now) self.now.rate self.now.erased self.now.encoder) (range_with_len 0 (symbol * share_of self.now.rate + count)) }
        ensures capacity { vec_capacity bits.new ≡ vec_capacity bits.old }
    {
        let turns = count / RUN;
        for turn in 0..turns {
            self.push_some(bits, labels, symbols, symbol, RUN * turn, RUN);
        }
        self.push_some(bits, labels, symbols, symbol, RUN * turns, count % RUN);
    }

    // What is known of the encoder's first coded bits: of those of whole symbols, and of a part of the next.
    #[inline(always)]
    fn received<L: LabelValues>(
        &self,
        alloc: Global,
        symbols: usize,
        labels: &L,
        count: usize,
    ) -> Result<Vec<L::Value>, AllocError>
        requires labels { HasSymbols (L.has labels.now) self.now.rate self.now.erased self.now.encoder symbols }
        requires count { count ≤ symbols * share_of self.now.rate }
        requires few { symbols ≤ 2 ^ 20 }
        ensures { IfOk result (λ bits. bits.items
            ≡ map (known_at (L.known labels.now) self.now.rate self.now.erased self.now.encoder) (range_with_len 0 count)) }
    {
        let share = self.places.len();
        let mut bits = Vec::with_capacity(alloc, count)?;
        for symbol in 0..count / share {
            self.push_symbol(&mut bits, labels, symbols, symbol, share);
        }
        self.push_symbol(&mut bits, labels, symbols, count / share, count % share);
        Ok(bits)
    }

    // The coded bits of a frame with this number of octets, which its symbols hold.
    #[tactic(auto, using(ht_conv::proofs::Fitting::sent_fits), unfolding(ht_parse::specs::Streams::share_of))]
    fn coded_bits(&self, octets: u16) -> usize
        requires { 1 ≤ octets }
        ensures value { result ≡ sent_count (pattern_of self.now.rate) (steps_of self.now.rate octets) }
        ensures within { result ≤ symbols_of self.now.rate octets * share_of self.now.rate }
    {
        sent(self.rate.pattern(), self.rate.codeword_steps(octets)) as usize
    }

    // The received list of a frame.
    fn gathered(&self, alloc: Global, frame: &FrameLabels) -> Result<Vec<ReceivedBit>, AllocError>
        requires { length frame.now.labels.now ≡ labels_in_frame self.now.rate frame.now.octets }
        ensures { IfOk result (λ bits. map known_of bits.items
            ≡ received_of self.now.rate frame.now.octets self.now.erased frame.now.labels.now self.now.encoder) }
    {
        let labels = frame.labels;
        let symbols = self.rate.symbols(frame.octets) as usize;
        let count = self.coded_bits(frame.octets);
        self.received(alloc, symbols, &Decisions { labels }, count)
    }

    // The received list of a frame in which nothing is erased, 60 places to a word.
    fn packed(&self, alloc: Global, frame: &FrameLabels) -> Result<Vec<u64>, AllocError>
        requires labels { length frame.now.labels.now ≡ labels_in_frame self.now.rate frame.now.octets }
        requires whole { self.now.erased ≡ 0 }
        ensures places { IfOk result (λ words.
            sent_count (pattern_of self.now.rate) (steps_of self.now.rate frame.now.octets) ≤ 60 * length words.items) }
        ensures list { IfOk result (λ words.
            packed words.items (sent_count (pattern_of self.now.rate) (steps_of self.now.rate frame.now.octets))
            ≡ received_of self.now.rate frame.now.octets self.now.erased frame.now.labels.now self.now.encoder) }
    {
        let labels = frame.labels;
        let symbols = self.rate.symbols(frame.octets) as usize;
        let count = self.coded_bits(frame.octets);
        let marks = self.received(alloc, symbols, &Marks { labels }, count)?;
        packed_words(alloc, &marks)
    }

    // The nearest codeword of a frame in which nothing is erased.
    fn nearest_whole(
        &self,
        alloc: Global,
        frame: &FrameLabels,
        steps: u32,
    ) -> Result<PackedInput, AllocError>
        requires steps { (tail ≤ steps) × (steps ≤ 524302) × (steps ≡ steps_of self.now.rate frame.now.octets) }
        requires labels { length frame.now.labels.now ≡ labels_in_frame self.now.rate frame.now.octets }
        requires whole { self.now.erased ≡ 0 }
        ensures found { IfOk result (λ p. IsNearest self.now.rate frame.now.octets self.now.erased frame.now.labels.now self.now.encoder steps
            (opened (pattern_of self.now.rate) steps p)) }
        ensures whole { IfOk result (λ p. HasSteps self.now.rate steps p) }
    {
        let words = self.packed(alloc, frame)?;
        decode_words(alloc, steps, self.rate.pattern(), &words)
    }

    // The nearest codeword of a frame of which bits may be lost.
    fn nearest_known(
        &self,
        alloc: Global,
        frame: &FrameLabels,
        steps: u32,
    ) -> Result<PackedInput, AllocError>
        requires steps { (tail ≤ steps) × (steps ≤ 524302) × (steps ≡ steps_of self.now.rate frame.now.octets) }
        requires labels { length frame.now.labels.now ≡ labels_in_frame self.now.rate frame.now.octets }
        ensures found { IfOk result (λ p. IsNearest self.now.rate frame.now.octets self.now.erased frame.now.labels.now self.now.encoder steps
            (opened (pattern_of self.now.rate) steps p)) }
        ensures whole { IfOk result (λ p. HasSteps self.now.rate steps p) }
    {
        let received = self.gathered(alloc, frame)?;
        let pattern = self.rate.pattern();
        let codeword = decode_received(alloc, steps, pattern, &received)?;
        PackedInput::of(alloc, pattern, &codeword)
    }

    // The nearest codeword of a frame.
    fn nearest(
        &self,
        alloc: Global,
        frame: &FrameLabels,
        steps: u32,
    ) -> Result<PackedInput, AllocError>
        requires steps { (tail ≤ steps) × (steps ≤ 524302) × (steps ≡ steps_of self.now.rate frame.now.octets) }
        requires labels { length frame.now.labels.now ≡ labels_in_frame self.now.rate frame.now.octets }
        ensures found { IfOk result (λ p. IsNearest self.now.rate frame.now.octets self.now.erased frame.now.labels.now self.now.encoder steps
            (opened (pattern_of self.now.rate) steps p)) }
        ensures whole { IfOk result (λ p. HasSteps self.now.rate steps p) }
    {
        if self.erased == 0 {
            self.nearest_whole(alloc, frame, steps)
        } else {
            self.nearest_known(alloc, frame, steps)
        }
    }

    /// What is known of the coded bits of a frame with this number of octets.
    ///
    /// `values` has a value for each label bit, N_SYM * N_CBPS in the order symbol, data subcarrier, stream, bit. A coded
    /// bit on an erased subcarrier has the value `lost`. The only refusal is lack of memory.
    pub fn values<V: Copy>(
        &self,
        alloc: Global,
        octets: u16,
        values: &[V],
        lost: V,
    ) -> Result<Vec<V>, AllocError>
        requires some { 1 ≤ octets }
        requires values { length values.now ≡ labels_in_frame self.now.rate octets * label_bits_of self.now.rate }
        ensures { IfOk result (λ found. found.items
            ≡ values_of lost self.now.rate octets self.now.erased values.now self.now.encoder) }
    {
        let symbols = self.rate.symbols(octets) as usize;
        let labels = Values {
            values,
            lost,
            label_bits: self.rate.label_bits(),
        };
        self.received(alloc, symbols, &labels, self.coded_bits(octets))
    }

    /// The codeword of a frame, decoded, with its input in words.
    pub(crate) fn codeword(
        &self,
        alloc: Global,
        frame: &FrameLabels,
    ) -> Result<PackedInput, AllocError>
        requires { length frame.now.labels.now ≡ labels_in_frame self.now.rate frame.now.octets }
        ensures value { IfOk result (λ p. opened (pattern_of self.now.rate) (steps_of self.now.rate frame.now.octets) p
            ≡ codeword_of self.now.rate frame.now.octets self.now.erased frame.now.labels.now self.now.encoder) }
        ensures steps { IfOk result (λ p. HasSteps self.now.rate (steps_of self.now.rate frame.now.octets) p) }
        ensures few { IfOk result (λ p. p.distance ≤ 2 ^ 30) }
    {
        let steps = self.rate.codeword_steps(frame.octets);
        self.nearest(alloc, frame, steps)
    }
}
