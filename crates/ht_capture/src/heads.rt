//! The beginning of a capture and the head of a frame.
ghost use Rattle.std.specs.Prelude.{◌≡◌, ◌<◌, ◌≤◌, ◌+◌, ◌^◌, [], true, IfOk, OnOk};
ghost use Rattle.ht_io.specs.Devices.{Takes, IsLater};
ghost use Rattle.ht_capture.specs.Fields.{Version, capture_magic, capture_magic_due, turn_due, carriers_due, known_version};
ghost use Rattle.ht_capture.specs.Files.{capture_start};
ghost use Rattle.ht_capture.specs.Reading.{here};
ghost use Rattle.ht_heads.specs.Heads.{head_octets};
ghost use Rattle.ht_fields.specs.WholeFiles.{ReadsTo};

use crate::fields;
use crate::items::FrameHead;
use crate::places::Turn;
use ht_io::{InFault, Source};

// Reads the magic.
fn magic<S: Source>(source: &mut S) -> Result<(), InFault>
    ensures told { ReadsTo result (here (capture_magic_due capture_magic) 0 (S.shown source.old))
        (λ _. here Version 4 (S.shown source.new)) (λ _. []) (S.shown source.new) }
    ensures octets { OnOk result (Takes (S.shown source.old) (S.shown source.new) capture_magic) }
    ensures later { IsLater (S.shown source.old) (S.shown source.new) }
{
    match ht_heads::magic(source, b"HTCP") {
        Ok(()) => Ok(()),
        Err(fault) => Err(fault),
    }
}

/// Reads the seven octets in front of the frames.
pub fn start<S: Source>(source: &mut S) -> Result<Turn, InFault>
    ensures told { ReadsTo result (here (capture_magic_due capture_magic) 0 (S.shown source.old))
        (λ turn. here (turn_due turn) 7 (S.shown source.new)) (λ _. []) (S.shown source.new) }
    ensures first { IfOk result (λ turn. (turn.frame ≡ 0) × (turn.number ≡ 0)) }
    ensures octets { IfOk result (λ turn. Takes (S.shown source.old) (S.shown source.new) (capture_start turn.version turn.left)) }
    ensures known { IfOk result (λ turn. known_version turn.version ≡ true) }
    ensures later { IsLater (S.shown source.old) (S.shown source.new) }
{
    match magic(source) {
        Ok(()) => {}
        Err(fault) => return Err(fault),
    }
    let version = match fields::version(source, 4) {
        Ok(version) => version,
        Err(fault) => return Err(fault),
    };
    match fields::frames(source, 5, version) {
        Ok(turn) => Ok(turn),
        Err(fault) => Err(fault),
    }
}

/// Reads bandwidth, MCS and length of the next frame.
pub fn head<S: Source>(source: &mut S, at: u64, turn: &Turn) -> Result<FrameHead, InFault>
    requires offset { at + 4 < 2 ^ 64 }
    requires left { 0 < turn.now.left }
    ensures told { ReadsTo result (here (turn_due turn.now) at (S.shown source.old))
        (λ head. here (carriers_due turn.now head 0 []) (at + 4) (S.shown source.new)) (λ _. []) (S.shown source.new) }
    ensures some { IfOk result (λ head. (head.frame ≡ turn.now.frame) × (1 ≤ head.length)) }
    ensures octets { IfOk result (λ head. Takes (S.shown source.old) (S.shown source.new) (head_octets head.rate head.length)) }
    ensures small { IfOk result (λ head. head.length < 2 ^ 16) }
    ensures none { IfOk result (λ head. head.erased ≡ 0) }
    ensures later { IsLater (S.shown source.old) (S.shown source.new) }
{
    match ht_heads::head(source, at) {
        Ok((rate, length)) => Ok(FrameHead {
            frame: turn.frame,
            rate,
            length,
            erased: 0,
        }),
        Err(fault) => Err(fault),
    }
}
