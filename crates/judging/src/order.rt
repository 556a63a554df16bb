// Which kind of record may follow which.
ghost use Rattle.std.specs.Prelude.{◌≡◌};
ghost use Rattle.study.specs.Reading.{may_follow_lem};

// Whether a record of a known kind may come after one of kind last (0: none yet); left says that a variable lacks its task.
pub fn may_follow(left: bool, last: u8, kind: u8) -> bool
    ensures { result ≡ may_follow_lem left last kind }
{
    match kind {
        1 => last <= 1 || last == 8,
        2 => 1 <= last && (last <= 3 || last == 7),
        3 => 2 <= last && last <= 3,
        4 => left && (1 <= last && (last <= 4 || (last == 7 || last == 9))),
        5 => last == 4 && !left,
        7 => 2 <= last && last <= 3,
        8 => last == 0,
        _ => last == 5,
    }
}
