// A reader of a study file.
#![tactic(auto)]

ghost use Rattle.std.specs.Prelude.{◌≡◌};
ghost use Rattle.records.specs.Records.{record_at_lem, next_of};
ghost use Rattle.reader.specs.Reading.{reader_at, record_after_lem};

use records::Found;

// The file, and the place from which it is read on.
#[derive(Clone, Copy)]
pub struct Reader<'a> {
    pub file: &'a [u8],
    pub at: usize,
}

// A reader at the file's start.
pub fn new<'a>(file: &'a [u8]) -> Reader<'a>
    ensures { result ≡ reader_at file.entry 0 }
{
    Reader { file, at: 0 }
}

// The record at the reader's place.
pub fn next<'a>(r: Reader<'a>) -> Found
    ensures { result ≡ record_at_lem r.entry.file.now r.entry.at }
{
    records::record_at(r.file, r.at)
}

// The reader of the same file that reads on from a place.
pub fn after<'a>(r: Reader<'a>, place: usize) -> Reader<'a>
    ensures { result ≡ reader_at r.entry.file place }
{
    Reader {
        file: r.file,
        at: place,
    }
}

// Where a record ended. Where none is there it is the refusal's place, and who reads on from it finds that refusal again.
fn place_after(found: Found) -> usize
    ensures { result ≡ next_of found }
{
    match found {
        Found::There {
            kind: _,
            start: _,
            next,
        } => next,
        Found::Unknown { place } => place,
        Found::Cut { kind: _, place } => place,
        Found::Ended { place } => place,
    }
}

// The record that a reader of the file finds at a place.
pub fn record_from(file: &[u8], at: usize) -> Found
    ensures { result ≡ record_at_lem file.now at }
{
    next(after(new(file), at))
}

// The record that follows the one at a place; where that one is not there, its refusal.
pub fn record_after(file: &[u8], at: usize) -> Found
    ensures { result ≡ record_after_lem file.now at }
{
    let r = after(new(file), at);
    let found = next(r);
    next(after(r, place_after(found)))
}
