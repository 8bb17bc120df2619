//! Laws of sealed files. Each holds for all lists of files, and stands on a function that does nothing.

ghost use Rattle.std.specs.Prelude.{◌≡◌, ◌++◌, ℕ, List, Some, max};
ghost use Rattle.cdr_shelf.specs.Files.{SealedFile, file_named, greatest_in, in_stream};
ghost use Rattle.cdr_shelf.specs.declared.file_name.FileName.{FileName};

/// A sealed file is found by its name, with its octets, whatever is sealed later.
pub fn sealed_files_stay()
    ensures { (files more : List SealedFile) (name : FileName) (octets : List ℕ) →
        file_named name files ≡ Some octets → file_named name (files ++ more) ≡ Some octets }
{}

/// A stream's files, and its greatest number, go on with what is sealed later.
pub fn sealed_files_go_on()
    ensures listed { (stream : ℕ) (files more : List SealedFile) →
        in_stream stream (files ++ more) ≡ in_stream stream files ++ in_stream stream more }
    ensures greatest { (stream : ℕ) (files more : List SealedFile) →
        greatest_in stream (files ++ more) ≡ max (greatest_in stream files) (greatest_in stream more) }
{}
