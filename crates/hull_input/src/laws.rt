//! Laws over what was read: each is the contract of a function that does nothing.
ghost use Rattle.hull_input.specs.Laws.{SomeReadsOfFilesExist, BytesAreThoseRead};
ghost use Rattle.hull_input.specs.Laws.{ReportBytesAreItsText};

use hull_io::Shelf;

/// Whatever is told of files, something may have been read of them.
pub fn some_reads_of_files_exist<F: Shelf>()
    ensures { SomeReadsOfFilesExist F.told F.faults F.last }
{}

/// The bytes that a step goes on with are those that were read of the file.
pub fn bytes_are_those_read()
    ensures { BytesAreThoseRead }
{}

/// Where a report is found in its file, the bytes that were read are the text of that report.
pub fn report_bytes_are_its_text()
    ensures { ReportBytesAreItsText }
{}
