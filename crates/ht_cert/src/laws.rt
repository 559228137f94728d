//! What holds of files of certificates.
ghost use Rattle.ht_fields.specs.FormatLaws.{CleanCanEnd, IsPrefixFree, WritesEach, WritesFiles};
ghost use Rattle.ht_cert.specs.Formats.{certificates};
ghost use Rattle.ht_cert.specs.Files.{AreRecords, certificates_file_of};

/// No file of certificates is a prefix of another, and equal files have equal records.
pub fn no_prefix()
    ensures { IsPrefixFree certificates }
{}

/// Good fields, wherever they lead, can be followed by more good fields up to the end of some file of certificates. So octets are clean
/// exactly where they are the first whole fields of some file, and then fewer octets than its next field has.
/// Those few needn't be that field's own: `48 54 43 54 01 ff` is clean, and no file begins with it.
pub fn clean_can_end()
    ensures { CleanCanEnd certificates }
{}

/// The file written of records is a file, and has these records.
pub fn written()
    ensures { WritesFiles certificates AreRecords certificates_file_of }
{}

/// Each file is the one that is written of its records, and these are records of which a file can be written.
pub fn each_of_records()
    ensures { WritesEach certificates AreRecords certificates_file_of }
{}
