// Bytes put into a file from a place on; each function returns the place after them.
#![tactic(auto)]

ghost use Rattle.std.specs.Prelude.{◌≡◌, [], ◌∷◌, ◌++◌, eqb};
ghost use Rattle.plain.specs.Choose.{pick};
ghost use Rattle.study.specs.Reading.{seed};
ghost use Rattle.spelling.specs.Spelling.{spelled_record};
ghost use Rattle.spelling.specs.Lent.{number};
ghost use Rattle.putting.specs.Put.{Fits, Put};

pub fn put<const N: usize>(bytes: [u8; N], at: usize, file: &mut [u8]) -> usize
    requires { Fits bytes at file.old }
    ensures { Put bytes.entry at file.old file.new result }
{
    let next = at + N;
    file[at..next].copy_from_slice(&bytes);
    next
}

// A record of one byte, unless that byte stands for one that is not written.
pub fn put_unless(unwritten: u8, kind: u8, n: u8, at: usize, file: &mut [u8]) -> usize
    requires { Fits (pick (eqb n unwritten) [] (kind ∷ n ∷ [])) at file.old }
    ensures { Put (pick (eqb n unwritten) [] (kind ∷ n ∷ [])) at file.old file.new result }
{
    if n == unwritten {
        return at;
    }
    put([kind, n], at, file)
}

// The seed of these four bytes, and the kind of the record behind it, which has no body.
pub fn put_seed(a: u8, b: u8, c: u8, d: u8, behind: u8, at: usize, file: &mut [u8]) -> usize
    requires { Fits (spelled_record (seed (number a b c d)) ++ (behind ∷ [])) at file.old }
    ensures { Put (spelled_record (seed (number a b c d)) ++ (behind ∷ [])) at file.old file.new result }
{
    put([5, a, b, c, d, behind], at, file)
}
