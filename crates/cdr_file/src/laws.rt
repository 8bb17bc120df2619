//! Laws of CDR files. Each holds for every file, and stands on a function that does nothing.

ghost use Rattle.std.specs.Prelude.{◌≡◌, ◌≢◌, ◌<◌, ◌≤◌, ◌^◌, ◌↔◌, ◌++◌, ◌∷◌, [], ℕ, ℤ, List, length, Ok};
ghost use Rattle.byteorder.specs.Endian.{big_number};
ghost use Rattle.cdr_file.specs.CdrFile.{FiledRecord, FileSettings, cdr_octets, facts_of, facts_of_one, facts_with, file_header, file_octets, read_file, run_octets};
ghost use Rattle.cdr_file.specs.CdrHeader.{AreCdrs};
ghost use Rattle.cdr_file.specs.FileHeader.{IsFileHeader, extends, header_octets};
ghost use Rattle.cdr_file.specs.Reading.{file_in};
ghost use Rattle.cdr_file.specs.Spelling.{AreOctets, IsFile, Spells, spelled_file};
ghost use Rattle.cdr_file.specs.Timestamp.{AreFields, fields_of, packed, stamp_of};
ghost use Rattle.cdr_file.specs.declared.closure.ClosureReason.{ClosureReason};
ghost use Rattle.cdr_file.specs.declared.file.CdrFile.{CdrFile};
ghost use Rattle.cdr_file.specs.declared.stamp_fields.StampFields.{StampFields};
ghost use Rattle.jiff_core.specs.Calendar.{IsWithin};

/// What holds of the octets of every file: both lengths in its header are true, and a record more is
/// a CDR more at its end. Below 2^32 octets, the first four say how many there are.
pub fn file_octets_law()
    ensures file_length { (run : List FiledRecord) (sequence : ℕ) (reason : ClosureReason)
        (settings : FileSettings) → (file_header run sequence reason settings).length
        ≡ length (file_octets run sequence reason settings) }
    ensures header_length { (run : List FiledRecord) (sequence : ℕ) (reason : ClosureReason)
        (settings : FileSettings) → (file_header run sequence reason settings).header_length
        ≡ length (header_octets (file_header run sequence reason settings)) }
    ensures first_octets { (run : List FiledRecord) (sequence : ℕ) (reason : ClosureReason)
        (settings : FileSettings) → length (file_octets run sequence reason settings) < 2 ^ 32 →
        big_number 4 (file_octets run sequence reason settings) ≡ length (file_octets run sequence reason settings) }
    ensures growth { (run : List FiledRecord) (last : FiledRecord)
        → run_octets (run ++ last ∷ []) ≡ run_octets run ++ cdr_octets last }
{}

/// What a header says of a run of records, by its first record and then a record more each time.
pub fn run_facts_law()
    ensures first { (filed : FiledRecord) → facts_of (filed ∷ []) ≡ facts_of_one filed }
    ensures more { (run : List FiledRecord) (last : FiledRecord) → run ≢ [] →
        facts_of (run ++ last ∷ []) ≡ facts_with (facts_of run) last }
{}

/// Octets are read as a file exactly where they spell it.
pub fn what_is_read_is_spelled()
    ensures { (octets : List ℕ) (file : CdrFile) → AreOctets octets →
        (file_in octets ≡ Ok file) ↔ Spells file octets }
{}

/// A file that is spelled is read back.
pub fn what_is_spelled_is_read()
    ensures { (file : CdrFile) → IsFile file → file_in (spelled_file file) ≡ Ok file }
{}

/// What is written of a run of records is read back: its header, and a CDR for each record. Each record
/// has an extension where the header has, and its release is 7.
pub fn what_is_written_is_read()
    ensures { (run : List FiledRecord) (sequence : ℕ) (reason : ClosureReason) (settings : FileSettings) →
        IsFileHeader (file_header run sequence reason settings) →
        AreCdrs (extends (file_header run sequence reason settings)) (read_file run sequence reason settings).cdrs →
        file_in (file_octets run sequence reason settings) ≡ Ok (read_file run sequence reason settings) }
{}

/// The fields of a timestamp say it, and no others do.
pub fn stamp_fields_law()
    ensures again { (stamp : ℕ) → stamp < 2 ^ 32 → packed (fields_of stamp) ≡ stamp }
    ensures fields { (fields : StampFields) → AreFields fields → fields_of (packed fields) ≡ fields }
{}

/// Each moment has a timestamp of four octets, by each clock.
pub fn each_stamp_fits()
    ensures { (moment : ℕ) (offset : ℤ) → moment ≤ 4102444799 → IsWithin 959 offset → stamp_of moment offset < 2 ^ 32 }
{}
