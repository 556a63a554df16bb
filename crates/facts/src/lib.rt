// The facts of an explanation.
#![tactic(auto)]

ghost use Rattle.std.specs.Prelude.{◌≡◌, List, ℕ, [], ◌∷◌, ◌++◌, ◌+◌, ◌<◌, length, take};
ghost use Rattle.facts.specs.Rows.{bytes_in};

// The rules by which one action comes directly before another.
#[derive(Clone, Copy, PartialEq, Eq)]
pub enum Rule {
    // It sets what the other leaves.
    Next,
    // It sets what the other wants.
    Sets,
    // It wants what the other leaves.
    Leaves,
}

// A fact, and the numbers that it names.
#[derive(Clone, Copy)]
pub enum Fact {
    // Of a trace: the variable's goal.
    Goal {
        variable: u8,
        value: u8,
    },
    // The action sets the value, and leaves the one before.
    Set {
        variable: u8,
        value: u8,
        action: u8,
        before: u8,
    },
    // Nobody sets the value.
    Unset {
        variable: u8,
        value: u8,
    },
    // The trace is back at the value.
    Round {
        variable: u8,
        value: u8,
    },
    // Of a walk: the action wants the value, which is off it.
    Wants {
        action: u8,
        variable: u8,
        value: u8,
    },
    // It starts at the value.
    Start {
        variable: u8,
        value: u8,
    },
    // The action takes it from one value to the next.
    Walk {
        variable: u8,
        action: u8,
        from: u8,
        to: u8,
    },
    // Of a ring: one action comes before the next by the rule, over the variable's value.
    Ring {
        rule: Rule,
        action: u8,
        next: u8,
        variable: u8,
        value: u8,
    },
    // Of a step of a plan: it comes after an earlier step, which is the action, by the rule, over the variable's value.
    After {
        rule: Rule,
        step: u8,
        action: u8,
        variable: u8,
        value: u8,
    },
}

// Stands where there is no fact yet.
pub const NONE: Fact = Fact::Goal {
    variable: 0,
    value: 0,
};

// What a line of an explanation tells: a fact, or the row of five bytes that stands for one.
pub trait Row: Copy {
    // The fact's kind, and four numbers, of which the kind says how many count.
    ghost bytes: { Self → List ℕ };

    fn row(self) -> [u8; 5]
        ensures { result ≡ bytes self };
}

impl Row for [u8; 5] {
    ghost bytes = { λ row. row };

    fn row(self) -> [u8; 5] {
        self
    }
}

impl Row for Fact {
    ghost bytes = { bytes_in };

    fn row(self) -> [u8; 5] {
        match self {
            Fact::Goal { variable, value } => [0, variable, value, 0, 0],
            Fact::Set {
                variable,
                value,
                action,
                before,
            } => [1, variable, value, action, before],
            Fact::Unset { variable, value } => [2, variable, value, 0, 0],
            Fact::Round { variable, value } => [3, variable, value, 0, 0],
            Fact::Wants {
                action,
                variable,
                value,
            } => [4, action, variable, value, 0],
            Fact::Start { variable, value } => [5, variable, value, 0, 0],
            Fact::Walk {
                variable,
                action,
                from,
                to,
            } => [6, variable, action, from, to],
            Fact::Ring {
                rule,
                action,
                next,
                variable,
                value,
            } => [7 + rule as u8, action, next, variable, value],
            Fact::After {
                rule,
                step,
                action,
                variable,
                value,
            } => [10 + rule as u8, step, action, variable, value],
        }
    }
}

// Puts one fact, or one row, behind n others, and answers how many there are now. There is room for 288: a step of a plan has one
// reason by the first rule, 31 by the second and 256 by the third at most.
pub fn add<F: Row>(facts: &mut [F; 288], n: usize, fact: F) -> usize
    requires { (n < 288) × (length facts.old ≡ 288) }
    ensures value { (result ≡ n + 1) × (length facts.new ≡ 288) }
    ensures facts_after { take result facts.new ≡ take n facts.old ++ (fact ∷ []) }
{
    facts[n] = fact;
    n + 1
}
