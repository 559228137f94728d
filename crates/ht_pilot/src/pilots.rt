//! The value of a pilot.
ghost use Rattle.std.specs.Prelude.{◌≡◌, ◌+◌, ◌%◌, ◌<◌, ◌≤◌, unsigned_abs};
ghost use Rattle.ht_rate.specs.Rates.{pilots_of, streams_of};
ghost use Rattle.ht_scramble.specs.Sequence.{polarity_at};
ghost use Rattle.ht_pilot.specs.Pilots.{pilot_of, is_negated};

use ht_rate::Rate;
use ht_scramble::polarity;

/// The symbols of L-SIG and HT-SIG in an HT-mixed header, which come before those of data.
const HEADER: u32 = 3;

/// The period of the polarity.
const PERIOD: u32 = 127;

// The polarity of a symbol of data.
fn data_polarity(symbol: u32) -> i8
    ensures value { result ≡ polarity_at ((symbol + 3) % 127) }
    ensures unit { unsigned_abs result ≡ 1 }
{
    polarity(symbol % PERIOD + HEADER)
}

// Whether this pilot has the other sign.
fn is_flipped(rate: &Rate, symbol: u32, index: u8, stream: u8) -> bool
    ensures { result ≡ is_negated rate.now symbol index stream }
{
    let place = u64::from(symbol) + u64::from(index) + u64::from(stream);
    place % u64::from(rate.pilots()) == 0
}

/// The value v of pilot `index` of a symbol on a stream, 1 or -1; the pilot is the point (v, 0).
/// `symbol` and `index` count from 0 and `stream` from 1, up to the rate's numbers of pilots and
/// streams (IEEE Std 802.11-2012, clause 20.3.11.10).
#[tactic(auto, unfolding(crate::specs::Pilots::pilot_of))]
pub fn pilot(rate: &Rate, symbol: u32, index: u8, stream: u8) -> i8
    requires index { index < pilots_of rate.now }
    requires stream { (1 ≤ stream) × (stream ≤ streams_of rate.now) }
    ensures value { result ≡ pilot_of rate.now symbol index stream }
    ensures unit { unsigned_abs result ≡ 1 }
{
    let polarity = data_polarity(symbol);
    if is_flipped(rate, symbol, index, stream) {
        -polarity
    } else {
        polarity
    }
}
