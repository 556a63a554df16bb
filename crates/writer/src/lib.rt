// Writes a study file from lists: judged first, so that a refusal alters nothing.
#![tactic(auto)]

ghost use Rattle.std.specs.Prelude.{◌≡◌};
ghost use Rattle.answer.specs.Answers.{refusal};
ghost use Rattle.spelling.specs.Write.{WriteAllows};

use answer::Answer;
use drafting::Judged;

fn numbers(number: u64, first: usize) -> Answer
    ensures { result ≡ refusal number first }
{
    Answer {
        number,
        first: first as u64,
        second: 0,
    }
}

// Answer 0 gives the length of the file, which fills the first bytes.
pub fn write(
    situation: u8,
    variables: &[u8],
    actions: &[u8],
    conditions: &[u8],
    crews: &[u8],
    tasks: &[u8],
    file: &mut [u8],
) -> Answer
    ensures { WriteAllows situation variables.now actions.now conditions.now crews.now tasks.now
        file.old result file.new }
{
    let judged = drafting::judge(situation, variables, actions, conditions, crews, tasks);
    match judged {
        Judged::Refused { number, place } => numbers(number as u64, place),
        Judged::Good(length) => {
            if file.len() < length {
                return numbers(13, length);
            }
            writing::write(
                situation, variables, actions, conditions, crews, tasks, file,
            );
            numbers(0, length)
        }
    }
}
