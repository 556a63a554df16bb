// The three numbers that every call returns, and the rules that input may break.
#![tactic(auto)]

ghost use Rattle.std.specs.Prelude.{◌≡◌};
ghost use Rattle.answer.specs.Answers.{number_of, done, refusal, refused, three};

#[repr(C)]
#[derive(Clone, Copy)]
pub struct Answer {
    pub number: u64,
    pub first: u64,
    pub second: u64,
}

// The rules, by what breaks them. Each has the number that a call which refuses for it answers.
#[derive(Clone, Copy, Debug, PartialEq, Eq)]
pub enum Rule {
    Cut = 1,
    NoKind = 2,
    OutOfOrder = 3,
    TooMany = 4,
    OutOfRange = 5,
    Improper = 6,
    Repeats = 7,
    Trailing = 8,
    NoRankList = 9,
    NoWalk = 10,
    OffWalk = 11,
    Ring = 12,
    NoRoom = 13,
    NoAction = 14,
    Barred = 15,
    HeldBefore = 16,
    AwayFromGoal = 17,
    NoSeed = 18,
    WrongCount = 19,
    OutOfForce = 20,
    Unused = 21,
    NoCrew = 22,
    WentBack = 23,
    WrongList = 25,
    WrongPair = 26,
    Circle = 27,
    LacksOrder = 28,
}

// Which rule is broken, and at which place.
#[derive(Clone, Copy, Debug, PartialEq, Eq)]
pub struct Refusal {
    pub rule: Rule,
    pub place: usize,
}

impl Answer {
    pub fn done(first: u64, second: u64) -> Answer
        ensures { result ≡ done first second }
    {
        Answer {
            number: 0,
            first,
            second,
        }
    }
}

impl Rule {
    // The answer of a call that refuses for this rule.
    pub fn answer(self, first: u64, second: u64) -> Answer
        ensures { result ≡ three (number_of self) first second }
    {
        Answer {
            number: self as u64,
            first,
            second,
        }
    }

    // The same where only one number is told.
    pub fn refusal(self, first: u64) -> Answer
        ensures { result ≡ refusal (number_of self) first }
    {
        self.answer(first, 0)
    }

    pub fn at(self, place: usize) -> Refusal
        ensures { result ≡ record { rule = self; place = place } }
    {
        Refusal { rule: self, place }
    }
}

impl From<Refusal> for Answer {
    ghost from_gives = { λ r a. a ≡ refused r };

    fn from(r: Refusal) -> Answer {
        r.rule.refusal(r.place as u64)
    }
}
