//! How a symbol is cut into groups.
ghost use Rattle.std.specs.Prelude.{◌≡◌, ◌+◌, ◌*◌, ◌<◌, ◌≤◌};
ghost use Rattle.ht_rate.specs.Rates.{coded_bits_of};
ghost use Rattle.ht_parse.specs.Groups.{AreSizes};
ghost use Rattle.ht_parse.specs.Streams.{share_of};

use ht_rate::Rate;

/// The sizes of a symbol's groups: in each round every stream takes one group from every encoder.
#[derive(Clone, Copy)]
pub(crate) struct Layout {
    pub(crate) rate: Rate,
    pub(crate) encoders: usize,
    pub(crate) streams: usize,
    pub(crate) group: usize,
    pub(crate) rounds: usize,
    pub(crate) ghost sizes: { AreSizes rate encoders streams group rounds },
}

impl Layout {
    // The sizes at a rate.
    pub(crate) fn of(rate: &Rate) -> Self
        ensures { result.rate ≡ rate.now }
    {
        let encoders = usize::from(rate.encoders());
        let group = usize::from(rate.axis_bits());
        Layout {
            rate: *rate,
            encoders,
            streams: usize::from(rate.streams()),
            group,
            rounds: usize::from(rate.stream_bits()) / (encoders * group),
        }
    }

    // N_CBPS / N_ES: the bits of an encoder's list.
    pub(crate) fn share(&self) -> usize
        ensures { result ≡ share_of self.now.rate }
    {
        self.rounds * self.streams * self.group
    }

    // The first bit of an encoder's list in a stream's group of a round.
    pub(crate) fn bit(&self, stream: usize, round: usize) -> usize
        requires stream { stream < self.now.streams }
        requires round { round < self.now.rounds }
        ensures value { result ≡ (round * self.now.streams + stream) * self.now.group }
        ensures within { result + self.now.group ≤ share_of self.now.rate }
    {
        (round * self.streams + stream) * self.group
    }

    // The first place in the symbol of an encoder's group in a round of a stream.
    pub(crate) fn place(&self, stream: usize, round: usize, encoder: usize) -> usize
        requires stream { stream < self.now.streams }
        requires round { round < self.now.rounds }
        requires encoder { encoder < self.now.encoders }
        ensures value { result ≡ ((stream * self.now.rounds + round) * self.now.encoders + encoder) * self.now.group }
        ensures within { result + self.now.group ≤ coded_bits_of self.now.rate }
    {
        ((stream * self.rounds + round) * self.encoders + encoder) * self.group
    }
}
