//! The texts that lines are put together from.
ghost use Rattle.std.specs.Prelude.{◌≡◌, ◌^◌, ◌%◌, ◌<◌, length, IfOk};
ghost use Rattle.ht_map.specs.Gray.{point_of};
ghost use Rattle.ht_rate.specs.Schemes.{bits_of};
ghost use Rattle.ht_rate.specs.declared.kinds.Modulation.TheVariants.{Bpsk, Qpsk, Qam16, Qam64};
ghost use Rattle.ht_rx.specs.Tables.{AreCarriers, ArePoints};

use crate::carrier_text::CarrierText;
use crate::point_text::PointText;
use ht_map::point;
use ht_rate::Modulation;
use std::alloc::{AllocError, Global};

/// The texts of the points of a constellation by their labels, and those of all subcarriers' numbers.
#[derive(Drop)]
pub(crate) struct Texts {
    /// Whose constellation it is.
    pub(crate) modulation: Modulation,
    points: Vec<PointText>,
    carriers: Vec<CarrierText>,
    ghost all_points: { length points.items ≡ 2 ^ bits_of modulation },
    ghost are_points: { ArePoints modulation points.items },
    ghost all_carriers: { length carriers.items ≡ 256 },
    ghost are_carriers: { AreCarriers carriers.items },
}

// The number of points of a constellation.
fn number_of_points(modulation: Modulation) -> u8
    ensures { result ≡ 2 ^ bits_of modulation }
{
    match modulation {
        Modulation::Bpsk => 2,
        Modulation::Qpsk => 4,
        Modulation::Qam16 => 16,
        Modulation::Qam64 => 64,
    }
}

// The texts of the points of a constellation.
fn points(alloc: Global, modulation: Modulation) -> Result<Vec<PointText>, AllocError>
    ensures all { IfOk result (λ texts. length texts.items ≡ 2 ^ bits_of modulation) }
    ensures are { IfOk result (λ texts. ArePoints modulation texts.items) }
{
    let mut texts = Vec::new(alloc);
    for label in 0..number_of_points(modulation) {
        texts.push(PointText::of(point(modulation, label)))?;
    }
    Ok(texts)
}

// The texts of all subcarriers' numbers.
fn carriers(alloc: Global) -> Result<Vec<CarrierText>, AllocError>
    ensures all { IfOk result (λ texts. length texts.items ≡ 256) }
    ensures are { IfOk result (λ texts. AreCarriers texts.items) }
{
    let mut texts = Vec::new(alloc);
    for carrier in 0..256u16 {
        texts.push(CarrierText::of(carrier as u8))?;
    }
    Ok(texts)
}

impl Texts {
    /// The texts of a constellation. The only error is lack of memory.
    fn of(alloc: Global, modulation: Modulation) -> Result<Texts, AllocError>
        ensures { IfOk result (λ texts. texts.modulation ≡ modulation) }
    {
        Ok(Texts {
            modulation,
            points: points(alloc, modulation)?,
            carriers: carriers(alloc)?,
        })
    }

    /// That of the point that has the label in the last eight bits.
    #[inline(always)]
    pub(crate) fn point(&self, label: u32) -> &PointText
        requires { label % 256 < 2 ^ bits_of self.now.modulation }
        ensures { result.now.point ≡ point_of self.now.modulation (label % 256) }
    {
        &self.points[(label % 256) as usize]
    }

    /// That of a subcarrier's number.
    #[inline(always)]
    pub(crate) fn carrier(&self, carrier: u8) -> &CarrierText
        ensures { result.now.carrier ≡ carrier }
    {
        &self.carriers[usize::from(carrier)]
    }
}

/// The texts of all constellations.
#[derive(Drop)]
pub(crate) struct AllTexts {
    bpsk: Texts,
    qpsk: Texts,
    qam16: Texts,
    qam64: Texts,
    ghost of_bpsk: { bpsk.modulation ≡ Bpsk },
    ghost of_qpsk: { qpsk.modulation ≡ Qpsk },
    ghost of_qam16: { qam16.modulation ≡ Qam16 },
    ghost of_qam64: { qam64.modulation ≡ Qam64 },
}

impl AllTexts {
    /// The texts. The only error is lack of memory.
    pub(crate) fn new(alloc: Global) -> Result<AllTexts, AllocError> {
        Ok(AllTexts {
            bpsk: Texts::of(alloc, Modulation::Bpsk)?,
            qpsk: Texts::of(alloc, Modulation::Qpsk)?,
            qam16: Texts::of(alloc, Modulation::Qam16)?,
            qam64: Texts::of(alloc, Modulation::Qam64)?,
        })
    }

    /// Those of a constellation.
    pub(crate) fn of(&self, modulation: Modulation) -> &Texts
        ensures { result.now.modulation ≡ modulation }
    {
        match modulation {
            Modulation::Bpsk => &self.bpsk,
            Modulation::Qpsk => &self.qpsk,
            Modulation::Qam16 => &self.qam16,
            Modulation::Qam64 => &self.qam64,
        }
    }
}
