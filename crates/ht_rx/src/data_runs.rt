//! Runs of data subcarriers (IEEE Std 802.11-2012, clause 20.3.11.10).
ghost use Rattle.std.specs.Prelude.{◌≡◌, ◌+◌, ◌<◌, ◌≤◌};
ghost use Rattle.ht_rate.specs.Carriers.{carrier_at};
ghost use Rattle.ht_rate.specs.declared.kinds.Bandwidth.TheVariants.{Mhz20, Mhz40};
ghost use Rattle.ht_results.specs.Captured.{kind_of};
ghost use Rattle.ht_eights.specs.DataRuns.{IsDataRun};

use ht_rate::{Bandwidth, Rate};

// The number of data subcarriers from each subcarrier on, up to the next pilot or the last subcarrier, at 20 MHz.
#[rattlefmt::skip]
static RUNS_20: [u8; 56] = [
    7, 6, 5, 4, 3, 2, 1, 0, 13, 12, 11, 10, 9, 8, 7, 6, 5, 4, 3, 2, 1, 0, 12, 11, 10, 9, 8, 7, 6,
    5, 4, 3, 2, 1, 0, 13, 12, 11, 10, 9, 8, 7, 6, 5, 4, 3, 2, 1, 0, 7, 6, 5, 4, 3, 2, 1,
];

// The same at 40 MHz.
#[rattlefmt::skip]
static RUNS_40: [u8; 114] = [
    5, 4, 3, 2, 1, 0, 27, 26, 25, 24, 23, 22, 21, 20, 19, 18, 17, 16, 15, 14, 13, 12, 11, 10, 9, 8,
    7, 6, 5, 4, 3, 2, 1, 0, 13, 12, 11, 10, 9, 8, 7, 6, 5, 4, 3, 2, 1, 0, 18, 17, 16, 15, 14, 13,
    12, 11, 10, 9, 8, 7, 6, 5, 4, 3, 2, 1, 0, 13, 12, 11, 10, 9, 8, 7, 6, 5, 4, 3, 2, 1, 0, 27, 26,
    25, 24, 23, 22, 21, 20, 19, 18, 17, 16, 15, 14, 13, 12, 11, 10, 9, 8, 7, 6, 5, 4, 3, 2, 1, 0,
    5, 4, 3, 2, 1,
];

// The data subcarriers from a subcarrier on at 20 MHz.
fn run_20(carrier: u8) -> u8
    requires { carrier < 56 }
    ensures run { IsDataRun (carrier_at Mhz20) carrier result }
    ensures within { carrier + result ≤ 56 }
{
    RUNS_20[usize::from(carrier)]
}

// The same at 40 MHz.
fn run_40(carrier: u8) -> u8
    requires { carrier < 114 }
    ensures run { IsDataRun (carrier_at Mhz40) carrier result }
    ensures within { carrier + result ≤ 114 }
{
    RUNS_40[usize::from(carrier)]
}

/// How many data subcarriers stand one behind another from this one on, up to the next pilot or the last subcarrier. Behind the
/// last one there is none.
pub(crate) fn data_run(rate: &Rate, carrier: u8) -> u8
    ensures { IsDataRun (kind_of rate.now) carrier result }
{
    if carrier >= rate.carriers() {
        return 0;
    }
    match rate.bandwidth() {
        Bandwidth::Mhz20 => run_20(carrier),
        Bandwidth::Mhz40 => run_40(carrier),
    }
}
