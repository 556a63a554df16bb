// The tables that one pass over a file fills, in rows, and what a row holds.
#![tactic(auto)]

ghost use Rattle.std.specs.Prelude.{◌≡◌, ◌+◌, ◌*◌, ◌≤◌, ◌<◌, eqb, length, get_or};
ghost use Rattle.tables.specs.Rows.{start_column, out_column, sets_in_row, opened_action, opened_variable_lem, OpensAction, OpensVariable, Begins};

// What a file says to a crew: how many variables and actions, and the seed; the rest is in the tables.
#[derive(Clone, Copy)]
pub struct Loaded {
    pub vars: usize,
    pub actions: usize,
    pub seed: u64,
}

// What a file says of all crews: how many variables, actions and crews; the rest is in the tables.
#[derive(Clone, Copy)]
pub struct Read {
    pub vars: usize,
    pub actions: usize,
    pub crews: usize,
}

// An action: its variable, pre and post, how many conditions it has, and where the first stands in the file.
#[derive(Clone, Copy)]
pub struct Act {
    pub var: u8,
    pub pre: u8,
    pub post: u8,
    pub many: u8,
    pub place: usize,
}

// A variable: how many values it has, its start and its goal.
#[derive(Clone, Copy)]
pub struct Var {
    pub count: u8,
    pub start: u8,
    pub goal: u8,
}

pub fn wide(x: u8) -> usize
    ensures { (result ≡ x) × (result < 256) }
{
    x as usize
}

fn place_of(low: u8, high: u8) -> usize
    ensures { result ≡ low + 256 * high }
{
    (low as usize) + 256 * (high as usize)
}

fn opened(row: [u8; 6]) -> Act
    ensures { result ≡ opened_action row }
{
    Act {
        var: row[0],
        pre: row[1],
        post: row[2],
        many: row[3] % 64,
        place: place_of(row[4], row[5]),
    }
}

fn opened_variable(row: [u8; 3]) -> Var
    ensures { result ≡ opened_variable_lem row }
{
    Var {
        count: row[0],
        start: row[1],
        goal: row[2],
    }
}

pub fn action_at(acts: &[[u8; 6]; 256], i: usize) -> Act
    requires { i < 256 }
    ensures { OpensAction acts.now i result }
{
    opened(acts[i])
}

pub fn variable_at(vars: &[[u8; 3]; 32], v: usize) -> Var
    requires { v < 32 }
    ensures { OpensVariable vars.now v result }
{
    opened_variable(vars[v])
}

// Whether an action is in force: its row says so.
pub fn in_force(acts: &[[u8; 6]; 256], i: usize) -> bool
    requires { i < 256 }
    ensures { result ≡ eqb (get_or (out_column acts.now) i 0) 0 }
{
    acts[i][3] < 64
}

// Whether an action is in force and sets the variable to the value.
pub fn sets_to(acts: &[[u8; 6]; 256], i: usize, v: u8, q: u8) -> bool
    requires { i < 256 }
    ensures { result ≡ sets_in_row acts.now i v q }
{
    let row = acts[i];
    row[0] == v && (row[2] == q && row[3] < 64)
}

// Puts the first n variables at their starts.
pub fn set_out(n: usize, vars: &[[u8; 3]; 32], state: &mut [u8; 32])
    requires { (n ≤ 32) × (length state.old ≡ 32) }
    ensures { Begins n (start_column vars.now) state.new }
{
    for v in 0..n {
        state[v] = variable_at(vars, v).start;
    }
}
