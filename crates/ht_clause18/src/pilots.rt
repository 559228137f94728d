//! The values of the pilots (IEEE Std 802.11-2012, clauses 18.3.5.9 and 18.3.5.10).
ghost use Rattle.std.specs.Prelude.{◌≡◌, ◌<◌, unsigned_abs};
ghost use Rattle.ht_clause18.specs.Pilots.{pilot_of};

use ht_scramble::polarity;

/// The period of the polarity.
const PERIOD: u32 = 127;

/// The SIGNAL symbol comes before those of data, and has the polarity p[0].
const SIGNAL: u32 = 1;

/// The highest pilot, which has the other sign.
const NEGATED: u8 = 3;

/// The value v of pilot `index` of a DATA symbol, 1 or -1; the pilot is the point (v, 0). Symbols count from 0, and so do
/// the four pilots, from the lowest subcarrier on.
#[tactic(auto, unfolding(crate::specs::Pilots::pilot_of))]
pub fn legacy_pilot(symbol: u32, index: u8) -> i8
    requires { index < 4 }
    ensures value { result ≡ pilot_of symbol index }
    ensures unit { unsigned_abs result ≡ 1 }
{
    let polarity = polarity(symbol % PERIOD + SIGNAL);
    if index == NEGATED {
        -polarity
    } else {
        polarity
    }
}
