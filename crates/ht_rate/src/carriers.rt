//! What each subcarrier carries (clauses 20.3.11.10 and 20.3.11.11).
ghost use Rattle.std.specs.Prelude.{◌≡◌, ◌+◌, ◌<◌};
ghost use Rattle.ht_rate.specs.declared.kinds.Bandwidth.TheVariants.{Mhz20, Mhz40};
ghost use Rattle.ht_rate.specs.Schemes.{data_count, pilot_count};
ghost use Rattle.ht_rate.specs.Carriers.{carrier_at, carrier_of, IsAmong};
ghost use Rattle.ht_rate.specs.Rates.{carriers_of};

use crate::kinds::Bandwidth;
use crate::kinds::Carrier::{self, Data, Pilot};
use crate::rates::Rate;

// What the subcarriers carry at 20 MHz, the lowest first.
#[rattlefmt::skip]
static CARRIERS_20: [Carrier; 56] = [
    Data(0), Data(1), Data(2), Data(3), Data(4), Data(5), Data(6), Pilot(0), Data(7), Data(8),
    Data(9), Data(10), Data(11), Data(12), Data(13), Data(14), Data(15), Data(16), Data(17),
    Data(18), Data(19), Pilot(1), Data(20), Data(21), Data(22), Data(23), Data(24), Data(25),
    Data(26), Data(27), Data(28), Data(29), Data(30), Data(31), Pilot(2), Data(32), Data(33),
    Data(34), Data(35), Data(36), Data(37), Data(38), Data(39), Data(40), Data(41), Data(42),
    Data(43), Data(44), Pilot(3), Data(45), Data(46), Data(47), Data(48), Data(49), Data(50),
    Data(51),
];

// The same at 40 MHz.
#[rattlefmt::skip]
static CARRIERS_40: [Carrier; 114] = [
    Data(0), Data(1), Data(2), Data(3), Data(4), Pilot(0), Data(5), Data(6), Data(7), Data(8),
    Data(9), Data(10), Data(11), Data(12), Data(13), Data(14), Data(15), Data(16), Data(17),
    Data(18), Data(19), Data(20), Data(21), Data(22), Data(23), Data(24), Data(25), Data(26),
    Data(27), Data(28), Data(29), Data(30), Data(31), Pilot(1), Data(32), Data(33), Data(34),
    Data(35), Data(36), Data(37), Data(38), Data(39), Data(40), Data(41), Data(42), Data(43),
    Data(44), Pilot(2), Data(45), Data(46), Data(47), Data(48), Data(49), Data(50), Data(51),
    Data(52), Data(53), Data(54), Data(55), Data(56), Data(57), Data(58), Data(59), Data(60),
    Data(61), Data(62), Pilot(3), Data(63), Data(64), Data(65), Data(66), Data(67), Data(68),
    Data(69), Data(70), Data(71), Data(72), Data(73), Data(74), Data(75), Pilot(4), Data(76),
    Data(77), Data(78), Data(79), Data(80), Data(81), Data(82), Data(83), Data(84), Data(85),
    Data(86), Data(87), Data(88), Data(89), Data(90), Data(91), Data(92), Data(93), Data(94),
    Data(95), Data(96), Data(97), Data(98), Data(99), Data(100), Data(101), Data(102), Pilot(5),
    Data(103), Data(104), Data(105), Data(106), Data(107),
];

impl Rate {
    /// What the subcarrier of this index carries, index 0 being the lowest of the `carriers()` subcarriers. It is asked for
    /// with each job, and looks up a table.
    #[inline]
    pub fn carrier(&self, index: u8) -> Carrier
        requires { index < carriers_of self.now }
        ensures value { result ≡ carrier_of self.now index }
        ensures within { IsAmong self.now result }
    {
        carrier(self.bandwidth(), index)
    }
}

// What a subcarrier carries at a bandwidth.
#[inline]
fn carrier(bandwidth: Bandwidth, index: u8) -> Carrier
    requires { index < data_count bandwidth + pilot_count bandwidth }
    ensures { result ≡ carrier_at bandwidth index }
{
    match bandwidth {
        Bandwidth::Mhz20 => carrier_20(index),
        Bandwidth::Mhz40 => carrier_40(index),
    }
}

// The same at 20 MHz.
fn carrier_20(index: u8) -> Carrier
    requires { index < 56 }
    ensures { result ≡ carrier_at Mhz20 index }
{
    CARRIERS_20[usize::from(index)]
}

// The same at 40 MHz.
fn carrier_40(index: u8) -> Carrier
    requires { index < 114 }
    ensures { result ≡ carrier_at Mhz40 index }
{
    CARRIERS_40[usize::from(index)]
}
