// What the program `compose` does with the bytes it was given: it cuts them into the lists of a study, and writes its file.
#![tactic(auto)]

ghost use Rattle.std.specs.Prelude.{◌≡◌, length};
ghost use Rattle.lawful.specs.Lengths.{longest_file};
ghost use Rattle.spelling.specs.Write.{WriteAllows};
ghost use Rattle.compose_call.specs.Input.{input_length, situation_in, variables_in, actions_in, conditions_in, crews_in, tasks_in};

use answer::Answer;

// Writes into room for the longest file, so that 13 is never answered.
pub fn compose(input: &[u8], file: &mut [u8]) -> Answer
    requires { (length input.now ≡ input_length) × (length file.old ≡ longest_file) }
    ensures { WriteAllows (situation_in input.now) (variables_in input.now) (actions_in input.now) (conditions_in input.now)
        (crews_in input.now) (tasks_in input.now) file.old result file.new }
{
    let actions = 11 + intake::pair_at(input, 0);
    let conditions = actions + intake::pair_at(input, 2);
    let crews = conditions + intake::pair_at(input, 4);
    let tasks = crews + intake::pair_at(input, 6);
    let end = tasks + intake::pair_at(input, 8);
    writer::write(
        input[10],
        &input[11..actions],
        &input[actions..conditions],
        &input[conditions..crews],
        &input[crews..tasks],
        &input[tasks..end],
        file,
    )
}
