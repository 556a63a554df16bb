// A plan told step by step, each with the reasons why it comes after earlier ones.
#![tactic(auto)]

ghost use Rattle.std.specs.Prelude.{◌≡◌, ◌≤◌, ◌<◌, length, get_or, take};
ghost use Rattle.study.specs.Study.{Study};
ghost use Rattle.study.specs.Reading.{reading_for, says};
ghost use Rattle.plans.specs.Plans.{StraightPlan};
ghost use Rattle.explained.specs.Explained.{step_text};
ghost use Rattle.recounting.specs.Ready.{Ready};

const STDOUT_FILENO: i32 = 1;

// A plan for a crew with the reasons of its steps, a piece for each step.
pub fn print_plan(file: &[u8], crew: u64, plan: &[u8])
    requires { (length plan.now ≤ 256) × ((t : Study) × (reading_for file.now crew ≡ says t) × StraightPlan t plan.now) }
{
    let mut acts = [[0u8; 6]; 256];
    let mut vars = [[0u8; 3]; 32];
    let mut setters = [0u8; 512];
    let loaded = mustering::load_for(file, crew, &mut acts, &mut vars, &mut setters).unwrap();
    let mut some = [0u64; 4];
    reasons::gather(plan, &mut some);
    let mut places = [0u8; 256];
    reasons::place_all(plan, &mut places);
    let mut wanters = [[0u64; 4]; 512];
    wanters::note_all(file, loaded.actions, &some, &acts, &mut wanters);
    print_steps(file, plan, &acts, &vars, &setters, &wanters, &places);
}

fn print_steps(
    file: &[u8],
    plan: &[u8],
    acts: &[[u8; 6]; 256],
    vars: &[[u8; 3]; 32],
    setters: &[u8; 512],
    wanters: &[[u64; 4]; 512],
    places: &[u8; 256],
)
    requires { (t : Study) × Ready file.now plan.now acts.now vars.now setters.now wanters.now places.now t }
{
    let mut out = [0u8; 8423];
    let n = telling::first(plan.len(), &mut out);
    io::write_all(STDOUT_FILENO, &out[..n]);
    for k in 0..plan.len() {
        let end = tell_step(
            file, k, plan, acts, vars, setters, wanters, places, &mut out,
        );
        io::write_all(STDOUT_FILENO, &out[..end]);
    }
}

// Puts step k's line and its reasons at the start of `out`.
fn tell_step(
    file: &[u8],
    k: usize,
    plan: &[u8],
    acts: &[[u8; 6]; 256],
    vars: &[[u8; 3]; 32],
    setters: &[u8; 512],
    wanters: &[[u64; 4]; 512],
    places: &[u8; 256],
    out: &mut [u8],
) -> usize
    requires { (k < length plan.now) × (length out.old ≡ 8423)
        × ((t : Study) × Ready file.now plan.now acts.now vars.now setters.now wanters.now places.now t) }
    ensures upper_bound { (result ≤ 8423) × (length out.new ≡ 8423) }
    ensures out_after { (t : Study)
        → Ready file.now plan.now acts.now vars.now setters.now wanters.now places.now t
        → take result out.new ≡ step_text t plan.now k (get_or plan.now k 0) }
{
    let action = tables::wide(plan[k]);
    let act = tables::action_at(acts, action);
    let begin = telling::step(out, 0, k, action, act.var, act.pre, act.post);
    let mut facts = [facts::NONE; 288];
    let n = reasons::of_step(file, act, vars, setters, wanters, places, &mut facts);
    wording::lines(&facts[..n], out, begin)
}
