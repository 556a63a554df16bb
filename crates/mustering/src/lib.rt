// Loads a study file for one of its crews: the tables, with that crew's tasks, and its seed.
#![tactic(auto)]

ghost use Rattle.std.specs.Prelude.{◌≡◌, ◌<◌};
ghost use Rattle.tables.specs.Tables.{Sized, Loads};
ghost use Rattle.tables.specs.Rows.{seen_all};

use answer::{Refusal, Rule};
use tables::Loaded;

fn wide(x: u16) -> usize
    ensures { (result ≡ x) × (result < 65536) }
{
    x as usize
}

// A crew that is not there is refused.
pub fn load_for(
    file: &[u8],
    crew: u64,
    acts: &mut [[u8; 6]; 256],
    vars: &mut [[u8; 3]; 32],
    setters: &mut [u8; 512],
) -> Result<Loaded, Refusal>
    requires { Sized (seen_all acts.old vars.old setters.old) }
    ensures { Loads file.now crew (seen_all acts.new vars.new setters.new) result }
{
    let mut crews = [0u16; 8];
    let read = loader::load(file, acts, vars, setters, &mut crews)?;
    if (read.crews as u64) <= crew {
        return Err(Rule::NoCrew.at(crew as usize));
    }
    let place = wide(crews[crew as usize]);
    tasking::enter_tasks(file, place, read.vars, vars);
    Ok(Loaded {
        vars: read.vars,
        actions: read.actions,
        seed: tasking::seed_at(file, place + 4 * read.vars),
    })
}
