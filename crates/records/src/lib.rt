// Reads one record of a study file: any bytes, any place.
#![tactic(auto)]

ghost use Rattle.std.specs.Prelude.{◌≡◌, true, ◌+◌, ◌≤◌, ◌<◌, length};
ghost use Rattle.records.specs.declared.Found.TheVariants.{There};
ghost use Rattle.records.specs.Records.{body_length_lem, record_at_lem, body_at, bodied};

// What stands at a place of a file.
#[derive(Clone, Copy)]
pub enum Found {
    // A whole record: its body starts at start, and next is the place after it.
    There { kind: u8, start: usize, next: usize },
    // A byte that is no kind.
    Unknown { place: usize },
    // A record whose body the file's end cuts.
    Cut { kind: u8, place: usize },
    // Nothing: the file ended before.
    Ended { place: usize },
}

// A record of a kind whose body has so many bytes: whole, or cut by the file's end.
fn with_body(len: usize, at: usize, kind: u8, body: usize) -> Found
    requires { at < len }
    ensures { result ≡ bodied len at kind body }
{
    let start = at + 1;
    if body <= len - start {
        Found::There {
            kind,
            start,
            next: start + body,
        }
    } else {
        Found::Cut { kind, place: at }
    }
}

// The lengths of the bodies, four bits for each kind, the lowest for kind 0.
const LENGTHS: u64 = 0x110432310;

fn body_length(kind: u8) -> usize
    requires { (1 ≤ kind) × (kind ≤ 9) }
    ensures { (result ≡ body_length_lem kind) × (result ≤ 4) }
{
    ((LENGTHS >> (4 * kind)) % 16) as usize
}

// The length is looked up without a jump, so that who reads on by the kind jumps once.
pub fn record_at(file: &[u8], at: usize) -> Found
    ensures { result ≡ record_at_lem file.now at }
{
    let len = file.len();
    if len <= at {
        return Found::Ended { place: len };
    }
    let kind = file[at];
    if kind < 1 {
        return Found::Unknown { place: at };
    }
    if 9 < kind {
        return Found::Unknown { place: at };
    }
    with_body(len, at, kind, body_length(kind))
}

// Whether a whole record of this kind stands at a place of the file or at its end, its body so long: for who asks for one kind
// alone. Who is told no is told nothing else, and asks record_at.
pub fn is_at(file: &[u8], at: usize, kind: u8, body: usize) -> bool
    requires { at ≤ length file.now }
    ensures { 1 ≤ kind → kind ≤ 9 → body ≡ body_length_lem kind → result ≡ true
        → record_at_lem file.now at ≡ There kind (at + 1) (at + 1 + body) }
{
    if file.len() - at <= body {
        return false;
    }
    file[at] == kind
}

// The body of the record at a place, as the part of the file that holds it; empty where no record is there.
pub fn body(file: &[u8], at: usize) -> &[u8]
    ensures { result.now ≡ body_at file.now at }
{
    let found = record_at(file, at);
    let Found::There {
        kind: _,
        start,
        next,
    } = found
    else {
        return &file[..0];
    };
    &file[start..next]
}
