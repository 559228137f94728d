//! Sizes of text that suffice for whole captures, files and bundles, whatever these hold.
ghost use Rattle.std.specs.Prelude.{◌≡◌, ◌-◌, ◌*◌, ◌^◌, ◌<◌, ◌≤◌, length, min, slice_index};
ghost use Rattle.ht_capture.specs.Fields.{captures};
ghost use Rattle.ht_certify.specs.Checks.{checking};
ghost use Rattle.ht_legacy_files.specs.CaptureFormats.{captures as legacy_captures};
ghost use Rattle.ht_legacy_rx.specs.Texts.{legacy_lines_of, legacy_text};
ghost use Rattle.ht_results.specs.JobTexts.{detect_text, lines_of};
ghost use Rattle.ht_results.specs.Texts.{frame_lines_of, rx_text};
ghost use Rattle.ht_soft_rx.specs.Texts.{soft_lines_of, soft_rx_text};
ghost use Rattle.ht_runs.specs.Formats.{filter};
ghost use Rattle.ht_library.specs.Sizes.{Suffices, SufficesForWhole, bundle_room, checks_room, jobs_room, legacy_room, room_said};

// The octet of this number, and 0 behind the last one.
fn octet(octets: &[u8], at: usize) -> u8
    ensures { result ≡ slice_index octets.now at }
{
    if at < octets.len() { octets[at] } else { 0 }
}

// The room that the frames of a capture need for their lines.
fn room(capture: &[u8]) -> u64
    requires { length capture.now < 2 ^ 59 }
    ensures { result ≡ room_said capture.now }
{
    let octets = capture.len() as u64;
    if octet(capture, 4) != 2 {
        return 32 + octets / 2;
    }
    let frames = 256 * u64::from(octet(capture, 5)) + u64::from(octet(capture, 6));
    32 + (17 * octets).min(131177 * frames)
}

/// A size that suffices for the text of [`mizgaure_detect`](crate::captures::mizgaure_detect) for a capture: six octets for
/// each of the capture's, or 2^64 - 1 where these are more.
#[unsafe(no_mangle)]
pub extern "C" fn mizgaure_detect_size(capture: &[u8]) -> u64
    ensures value { result ≡ min (jobs_room (length capture.now)) (2 ^ 64 - 1) }
    ensures suffices { length capture.now < 2 ^ 59 → Suffices (filter captures detect_text lines_of) capture.now result }
{
    (capture.len() as u64).saturating_mul(6)
}

/// A size that suffices for the text of [`mizgaure_rx`](crate::captures::mizgaure_rx) for a capture: half of the capture's size in
/// version 1, and some more; in version 2, whose symbols may be short, 17 times its size, or the most that its number of frames
/// takes. It is 2^64 - 1 for a capture of 2^59 octets or more.
#[unsafe(no_mangle)]
pub extern "C" fn mizgaure_rx_size(capture: &[u8]) -> u64
    ensures value { length capture.now < 2 ^ 59 → result ≡ room_said capture.now }
    ensures large { 2 ^ 59 ≤ length capture.now → result ≡ 2 ^ 64 - 1 }
    ensures suffices { length capture.now < 2 ^ 59 → Suffices (filter captures rx_text frame_lines_of) capture.now result }
{
    if capture.len() >= 1 << 59 {
        return u64::MAX;
    }
    room(capture)
}

/// A size that suffices for the text of [`mizgaure_soft`](crate::captures::mizgaure_soft) for a capture, as
/// [`mizgaure_rx_size`] says it.
#[unsafe(no_mangle)]
pub extern "C" fn mizgaure_soft_size(capture: &[u8]) -> u64
    ensures value { length capture.now < 2 ^ 59 → result ≡ room_said capture.now }
    ensures large { 2 ^ 59 ≤ length capture.now → result ≡ 2 ^ 64 - 1 }
    ensures suffices { length capture.now < 2 ^ 59 → Suffices (filter captures soft_rx_text soft_lines_of) capture.now result }
{
    if capture.len() >= 1 << 59 {
        return u64::MAX;
    }
    room(capture)
}

/// A size that suffices for the text of [`mizgaure_lrx`](crate::captures::mizgaure_lrx) for a capture of clause 18 frames: half of
/// the capture's size, and 32 octets.
#[unsafe(no_mangle)]
pub extern "C" fn mizgaure_lrx_size(capture: &[u8]) -> u64
    ensures value { result ≡ legacy_room (length capture.now) }
    ensures suffices { Suffices (filter legacy_captures legacy_text legacy_lines_of) capture.now result }
{
    32 + capture.len() as u64 / 2
}

/// A size that suffices for the text of [`mizgaure_check`](crate::files::mizgaure_check) for a file of certificates: twice the
/// file's size and 16 octets, or 2^64 - 1 where these are more.
#[unsafe(no_mangle)]
pub extern "C" fn mizgaure_check_size(file: &[u8]) -> u64
    ensures value { result ≡ min (checks_room (length file.now)) (2 ^ 64 - 1) }
    ensures suffices { length file.now < 2 ^ 59 → Suffices checking file.now result }
{
    (file.len() as u64).saturating_mul(2).saturating_add(16)
}

/// A size that suffices for the text of [`mizgaure_many`](crate::captures::mizgaure_many) for a bundle of captures that are all
/// whole: 17 octets for each of the bundle's, or 2^64 - 1 where these are more.
#[unsafe(no_mangle)]
pub extern "C" fn mizgaure_many_size(bundle: &[u8]) -> u64
    ensures value { result ≡ min (bundle_room (length bundle.now)) (2 ^ 64 - 1) }
    ensures suffices { length bundle.now < 2 ^ 59 → SufficesForWhole bundle.now result }
{
    (bundle.len() as u64).saturating_mul(17)
}
