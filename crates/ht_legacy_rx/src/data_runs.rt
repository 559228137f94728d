//! Runs of data subcarriers (IEEE Std 802.11-2012, clause 18.3.5.10).
ghost use Rattle.std.specs.Prelude.{◌≡◌, ◌<◌};
ghost use Rattle.ht_clause18.specs.Carriers.{carrier_of};
ghost use Rattle.ht_eights.specs.DataRuns.{IsDataRun};

// The number of data subcarriers from each subcarrier on, up to the next pilot or the last subcarrier.
#[rattlefmt::skip]
static RUNS: [u8; 52] = [
    5, 4, 3, 2, 1, 0, 13, 12, 11, 10, 9, 8, 7, 6, 5, 4, 3, 2, 1, 0, 12, 11, 10, 9, 8, 7, 6, 5, 4,
    3, 2, 1, 0, 13, 12, 11, 10, 9, 8, 7, 6, 5, 4, 3, 2, 1, 0, 5, 4, 3, 2, 1,
];

// The data subcarriers from a subcarrier of a symbol on.
fn run_from(carrier: u8) -> u8
    requires { carrier < 52 }
    ensures { IsDataRun carrier_of carrier result }
{
    RUNS[usize::from(carrier)]
}

/// How many data subcarriers stand one behind another from this one on, up to the next pilot or the last subcarrier. Behind the
/// last one none is told.
pub(crate) fn data_run(carrier: u8) -> u8
    ensures { IsDataRun carrier_of carrier result }
{
    if carrier < 52 { run_from(carrier) } else { 0 }
}
