// The faults 4 to 6 of a record that is allowed and whole; 0 where it has none.
ghost use Rattle.std.specs.Prelude.{◌≡◌, ◌≤◌};
ghost use Rattle.tables.specs.Rows.{count_column};
ghost use Rattle.judging.specs.Faults.{in_table, variable_fault_lem, action_fault_lem, condition_fault_lem, task_fault_lem, seed_fault_lem, times_fault_lem, present_fault_lem, crew_fault_lem};

// There is such a variable, and the value is one of its values.
fn in_range(rows: &[[u8; 3]; 32], vars: usize, v: u8, q: u8) -> bool
    requires { vars ≤ 32 }
    ensures { result ≡ in_table (count_column rows.now) vars v q }
{
    let i = v as usize;
    if vars <= i {
        return false;
    }
    q < rows[i][0]
}

pub fn variable_fault(vars: usize, n: u8) -> u8
    ensures { result ≡ variable_fault_lem vars n }
{
    if 32 <= vars {
        return 4;
    }
    if n < 2 {
        return 5;
    }
    if 16 < n {
        return 5;
    }
    0
}

pub fn action_fault(rows: &[[u8; 3]; 32], vars: usize, actions: usize, v: u8, p: u8, q: u8) -> u8
    requires { vars ≤ 32 }
    ensures { result ≡ action_fault_lem (count_column rows.now) vars actions v p q }
{
    if 256 <= actions {
        return 4;
    }
    if !in_range(rows, vars, v, p) {
        return 5;
    }
    if !in_range(rows, vars, v, q) {
        return 5;
    }
    if p == q {
        return 6;
    }
    0
}

pub fn condition_fault(rows: &[[u8; 3]; 32], vars: usize, own: u8, above: u8, v: u8, q: u8) -> u8
    requires { vars ≤ 32 }
    ensures { result ≡ condition_fault_lem (count_column rows.now) vars own above v q }
{
    if !in_range(rows, vars, v, q) {
        return 5;
    }
    if v == own {
        return 6;
    }
    if v < above {
        return 6;
    }
    0
}

pub fn task_fault(rows: &[[u8; 3]; 32], vars: usize, tasks: usize, v: u8, p: u8, q: u8) -> u8
    requires { vars ≤ 32 }
    ensures { result ≡ task_fault_lem (count_column rows.now) vars tasks v p q }
{
    let i = v as usize;
    if i == tasks {
        if !in_range(rows, vars, v, p) {
            return 5;
        }
        if !in_range(rows, vars, v, q) {
            return 5;
        }
        return 0;
    }
    5
}

pub fn seed_fault(n: u64) -> u8
    ensures { result ≡ seed_fault_lem n }
{
    if n < 1 {
        return 5;
    }
    if 2147483646 < n {
        return 5;
    }
    0
}

// A set of all eight situations is not written.
pub fn times_fault(n: u8) -> u8
    ensures { result ≡ times_fault_lem n }
{
    if n == 255 {
        return 6;
    }
    0
}

// Nor is situation 0.
pub fn present_fault(n: u8) -> u8
    ensures { result ≡ present_fault_lem n }
{
    if 7 < n {
        return 5;
    }
    if n == 0 {
        return 6;
    }
    0
}

// A ninth crew.
pub fn crew_fault(crews: usize) -> u8
    ensures { result ≡ crew_fault_lem crews }
{
    if 8 <= crews {
        return 4;
    }
    0
}
