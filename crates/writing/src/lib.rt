// Writes a study file from lists that were judged good: one record after another, each byte once.
#![tactic(auto)]

ghost use Rattle.std.specs.Prelude.{◌≡◌, ◌++◌, map, ◌*◌, ◌%◌, ◌≤◌, length, drop, ltb};
ghost use Rattle.plain.specs.Choose.{pick};
ghost use Rattle.study.specs.Study.{Roster};
ghost use Rattle.study.specs.Reading.{variable, says, reading};
ghost use Rattle.spelling.specs.Spelling.{spelled};
ghost use Rattle.spelling.specs.Lists.{task_record, crew_records, file_of};
ghost use Rattle.spelling.specs.Lent.{errands_in, crews_in, tasks_announced, lent};
ghost use Rattle.putting.specs.Put.{Fits, Put};

fn put_variables(variables: &[u8], begin: usize, file: &mut [u8]) -> usize
    requires { Fits (spelled (map variable variables.now)) begin file.old }
    ensures { Put (spelled (map variable variables.now)) begin file.old file.new result }
{
    let mut at = begin;
    for variable in variables {
        at = putting::put([1, *variable], at, file);
    }
    at
}

fn put_tasks(tasks: &[u8], begin: usize, file: &mut [u8]) -> usize
    requires { (length tasks.now % 3 ≡ 0)
        × Fits (spelled (map task_record (errands_in tasks.now))) begin file.old }
    ensures { Put (spelled (map task_record (errands_in tasks.now))) begin file.old file.new result }
{
    let mut at = begin;
    let (entries, _) = tasks.as_chunks::<3>();
    for [var, start, goal] in entries {
        at = putting::put([4, *var, *start, *goal], at, file);
    }
    at
}

// What stands behind a seed: the opening of the next crew, or the end.
fn kind_behind(next: usize, len: usize) -> u8
    ensures { result ≡ pick (ltb next len) 9 6 }
{
    if next < len {
        return 9;
    }
    6
}

// Some crew, each with its tasks and its seed, and the end.
fn put_crews(crews: &[u8], tasks: &[u8], begin: usize, file: &mut [u8]) -> usize
    requires { (1 ≤ length crews.now) × (length crews.now % 5 ≡ 0) × (length tasks.now ≡ 3 * tasks_announced crews.now)
        × Fits (spelled (crew_records (crews_in crews.now (errands_in tasks.now)))) begin file.old }
    ensures { Put (spelled (crew_records (crews_in crews.now (errands_in tasks.now)))) begin
        file.old file.new result }
{
    let mut at = begin;
    let mut used = 0;
    let (entries, _) = crews.as_chunks::<5>();
    for (k, [many, a, b, c, d]) in entries.iter().enumerate() {
        let next = used + 3 * usize::from(*many);
        at = put_tasks(&tasks[used..next], at, file);
        let behind = kind_behind(k + 1, entries.len());
        at = putting::put_seed(*a, *b, *c, *d, behind, at, file);
        used = next;
    }
    at
}

// The file that the lists stand for fills the first bytes.
pub fn write(
    situation: u8,
    variables: &[u8],
    actions: &[u8],
    conditions: &[u8],
    crews: &[u8],
    tasks: &[u8],
    file: &mut [u8],
)
    requires { ((r : Roster) × (reading (file_of (lent situation variables.now actions.now conditions.now crews.now tasks.now)) ≡ says r))
        × (length (file_of (lent situation variables.now actions.now conditions.now crews.now tasks.now)) ≤ length file.old) }
    ensures { file.new
        ≡ file_of (lent situation variables.now actions.now conditions.now crews.now tasks.now)
        ++ drop (length (file_of (lent situation variables.now actions.now conditions.now crews.now tasks.now)))
        file.old }
{
    let variables_at = putting::put_unless(0, 8, situation, 0, file);
    let actions_at = put_variables(variables, variables_at, file);
    let crews_at = scribing::put_actions(actions, conditions, actions_at, file);
    put_crews(crews, tasks, crews_at, file);
}
