//! What each subcarrier carries (IEEE Std 802.11-2012, clauses 18.3.5.9 and 18.3.5.10).
ghost use Rattle.std.specs.Prelude.{◌≡◌, ◌<◌};
ghost use Rattle.ht_clause18.specs.Carriers.{carriers, carrier_of, IsAmong};

use ht_rate::Carrier;

/// The number of subcarriers of a symbol: -26 to -1 and 1 to 26.
pub(crate) const CARRIERS: u8 = 52;

/// The pilot subcarriers, as bits of a word: those of the indexes 5, 19, 32 and 46.
const PILOTS: u64 = 1 << 5 | 1 << 19 | 1 << 32 | 1 << 46;

/// The number of each subcarrier among those of its kind.
static NUMBERS: [u8; 52] = [
    0, 1, 2, 3, 4, 0, 5, 6, 7, 8, 9, 10, 11, 12, 13, 14, 15, 16, 17, 1, 18, 19, 20, 21, 22, 23, 24,
    25, 26, 27, 28, 29, 2, 30, 31, 32, 33, 34, 35, 36, 37, 38, 39, 40, 41, 42, 3, 43, 44, 45, 46,
    47,
];

/// What the subcarrier of this index carries, index 0 being the lowest of the 52: one of the four pilots or of the 48 data
/// subcarriers, each kind numbered from 0 upwards. It is asked for with each job, and looks up a table.
#[inline]
pub fn legacy_carrier(index: u8) -> Carrier
    requires { index < carriers }
    ensures value { result ≡ carrier_of index }
    ensures within { IsAmong result }
{
    let number = NUMBERS[usize::from(index)];
    if PILOTS & (1 << index) == 0 {
        Carrier::Data(number)
    } else {
        Carrier::Pilot(number)
    }
}
