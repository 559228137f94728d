//! Which octets are clean: the whole fields that a capture can begin with, and a part of one more.
ghost use Rattle.ht_fields.specs.FormatLaws.{CleanCanEnd};
ghost use Rattle.ht_capture.specs.Fields.{captures};

/// Good fields, wherever they lead, can be followed by more good fields up to the end of some capture. So octets are clean
/// exactly where they are the first whole fields of some capture, and then fewer octets than its next field has.
///
/// `48 54 43 50 02 00 03` is clean: it begins a capture, here one of three frames. `48 54 43 50 03` isn't: no capture begins
/// with it.
pub fn clean_can_end()
    ensures { CleanCanEnd captures }
{}
