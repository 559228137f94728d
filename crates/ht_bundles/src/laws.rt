//! What holds of bundles.
ghost use Rattle.ht_fields.specs.FormatLaws.{AreFiles, CleanCanEnd};
ghost use Rattle.ht_bundles.specs.Formats.{bundles as bundles_format};
ghost use Rattle.ht_bundles.specs.Files.{AreCaptures, bundle_of};

/// Bundles give back the captures that they are made of, and good fields can always be continued to a bundle.
///
/// The bundle made of captures is a bundle of these captures and of no others; captures of which the same bundle is made are
/// the same. No bundle is a prefix of another, and equal bundles hold equal captures.
///
/// Good fields, wherever they lead, can be followed by more good fields up to the end of some bundle. So octets are clean
/// exactly where they are the first whole fields of some bundle, and then fewer octets than its next field has.
pub fn capture_bundles()
    ensures files { AreFiles bundles_format AreCaptures bundle_of }
    ensures clean_can_end { CleanCanEnd bundles_format }
{}
