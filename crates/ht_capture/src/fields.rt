//! The fields that only captures have, each read whole and judged.
ghost use Rattle.std.specs.Prelude.{◌≡◌, ◌<◌, ◌≤◌, ◌+◌, ◌^◌, List, [], ◌∷◌, true, Ok, length, take, IfOk, OnOk};
ghost use Rattle.byteorder.specs.Endian.{big_bytes};
ghost use Rattle.ht_io.specs.Devices.{Takes, IsLater};
ghost use Rattle.ht_fields.specs.Tests.{AreBytes};
ghost use Rattle.ht_fields.specs.WholeFiles.{ReadsTo};
ghost use Rattle.ht_rate.specs.Rates.{carriers_of, streams_of};
ghost use Rattle.ht_capture.specs.declared.items.Item.{Item as ItemValue};
ghost use Rattle.ht_capture.specs.declared.places.Present.{Present as PresentValue};
ghost use Rattle.ht_capture.specs.declared.places.Turn.{Turn as TurnValue};
ghost use Rattle.ht_capture.specs.Fields.{CaptureState, Version, Count, Flag};
ghost use Rattle.ht_capture.specs.Fields.{turn_due, known_version, bad_flag};
ghost use Rattle.ht_capture.specs.Gathered.{ReadsTriangle};
ghost use Rattle.ht_capture.specs.Files.{flag_octet, legs_octets};
ghost use Rattle.ht_capture.specs.Contents.{AreLegs};
ghost use Rattle.ht_capture.specs.Reading.{IsGood, ReadsFlag, here};

use crate::items::FrameHead;
use crate::numbers;
use crate::places::Turn;
use ht_fields::{bad, fill, number, octet};
use ht_io::{InFault, Kind, Source};
use ht_metric::Triangle;
use ht_rate::Rate;

// Whether the format has the version.
fn is_known(version: u8) -> bool
    ensures { result ≡ known_version version }
{
    version == 1 || version == 2
}

/// Reads the version, 1 or 2.
pub fn version<S: Source>(source: &mut S, at: u64) -> Result<u8, InFault>
    requires offset { at + 1 < 2 ^ 64 }
    ensures told { ReadsTo result (here Version at (S.shown source.old))
        (λ version. here (Count version) (at + 1) (S.shown source.new)) (λ _. []) (S.shown source.new) }
    ensures octets { IfOk result (λ version. Takes (S.shown source.old) (S.shown source.new) (version ∷ [])) }
    ensures known { IfOk result (λ version. known_version version ≡ true) }
    ensures later { IsLater (S.shown source.old) (S.shown source.new) }
{
    match octet(source, at) {
        Ok(version) => {
            if is_known(version) {
                Ok(version)
            } else {
                Err(bad(Kind::BadVersion, at))
            }
        }
        Err(fault) => Err(fault),
    }
}

/// Reads the number of frames.
pub fn frames<S: Source>(source: &mut S, at: u64, version: u8) -> Result<Turn, InFault>
    requires offset { at + 2 < 2 ^ 64 }
    ensures told { ReadsTo result (here (Count version) at (S.shown source.old))
        (λ turn. here (turn_due turn) (at + 2) (S.shown source.new)) (λ _. []) (S.shown source.new) }
    ensures first { IfOk result (λ turn. (turn.frame ≡ 0) × (turn.number ≡ 0)) }
    ensures octets { IfOk result (λ turn. Takes (S.shown source.old) (S.shown source.new) (big_bytes 2 turn.left)) }
    ensures version { IfOk result (λ turn. turn.version ≡ version) }
    ensures later { IsLater (S.shown source.old) (S.shown source.new) }
{
    match number(source, at) {
        Ok(left) => Ok(Turn {
            version,
            left,
            frame: 0,
            number: 0,
        }),
        Err(fault) => Err(fault),
    }
}

// Whether a flag that isn't 0 is bad: it is above 1, or it leaves no subcarrier.
#[tactic(auto, unfolding(crate::specs::Fields::bad_flag))]
fn is_refused(flag: u8, head: &FrameHead, carrier: u8, count: usize) -> bool
    requires { carrier < carriers_of head.now.rate }
    ensures { result ≡ bad_flag head.now carrier count flag }
{
    let last = head.rate.carriers() - 1;
    flag > 1 || carrier == last && count == 0
}

/// Reads the flag of a subcarrier: whether it is erased. Of the lower subcarriers `count` are present.
pub fn flag<S: Source>(
    source: &mut S,
    at: u64,
    head: &FrameHead,
    carrier: u8,
    count: usize,
) -> Result<bool, InFault>
    requires offset { at + 1 < 2 ^ 64 }
    requires carrier { carrier < carriers_of head.now.rate }
    ensures told { (turn : TurnValue) (present : List PresentValue) → length present ≡ count → ReadsFlag result (Flag turn head.now carrier present)
        turn head.now carrier present at (at + 1) (S.shown source.old) (S.shown source.new) }
    ensures some { result ≡ Ok true → (carrier + 1 ≡ carriers_of head.now.rate) → 0 < count }
    ensures octets { IfOk result (λ erased. Takes (S.shown source.old) (S.shown source.new) (flag_octet erased ∷ [])) }
    ensures later { IsLater (S.shown source.old) (S.shown source.new) }
{
    match octet(source, at) {
        Ok(flag) => {
            if flag == 0 {
                Ok(false)
            } else if is_refused(flag, head, carrier, count) {
                Err(bad(Kind::BadErased, at))
            } else {
                Ok(true)
            }
        }
        Err(fault) => Err(fault),
    }
}

/// Reads the field that is due, of `width` octets, to the front of the buffer.
pub fn field<S: Source>(
    source: &mut S,
    at: u64,
    width: usize,
    buffer: &mut [u8],
) -> Result<(), InFault>
    requires offset { at + width < 2 ^ 64 }
    requires space { width ≤ length buffer.old }
    ensures told { (due next : CaptureState) (items : List ItemValue) → IsGood due (take width buffer.new) next items
        → ReadsTo result (here due at (S.shown source.old)) (λ _. here next (at + width) (S.shown source.new)) (λ _. items) (S.shown source.new) }
    ensures octets { OnOk result (Takes (S.shown source.old) (S.shown source.new) (take width buffer.new)) }
    ensures size { length (take width buffer.new) ≡ width }
    ensures bytes { AreBytes (take width buffer.new) }
    ensures later { IsLater (S.shown source.old) (S.shown source.new) }
{
    match fill(source, at, &mut buffer[..width]) {
        Ok(()) => Ok(()),
        Err(fault) => Err(fault),
    }
}

/// Reads the triangle of a subcarrier.
pub fn triangle<S: Source>(source: &mut S, at: u64, rate: &Rate) -> Result<Triangle, InFault>
    requires offset { at + 32 < 2 ^ 64 }
    ensures told { ReadsTriangle result rate.now at (S.shown source.old) (S.shown source.new) }
    ensures streams { IfOk result (λ legs. length legs ≡ streams_of rate.now) }
    ensures octets { IfOk result (λ legs. Takes (S.shown source.old) (S.shown source.new) (legs_octets legs)) }
    ensures typed { IfOk result AreLegs }
    ensures later { IsLater (S.shown source.old) (S.shown source.new) }
{
    let streams = rate.streams();
    let width = numbers::triangle_width(streams);
    let mut octets = [0u8; 32];
    match field(source, at, width, &mut octets) {
        Ok(()) => Ok(numbers::triangle(streams, &octets[..width])),
        Err(fault) => Err(fault),
    }
}
