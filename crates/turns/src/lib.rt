// How many crews a program takes in turn.
#![tactic(auto)]

ghost use Rattle.std.specs.Prelude.{◌≡◌};
ghost use Rattle.study.specs.Reading.{reading};
ghost use Rattle.turns.specs.Turns.{turns_in};

pub fn in_file(file: &[u8]) -> u64
    ensures { result ≡ turns_in (reading file.now) }
{
    let mut acts = [[0u8; 6]; 256];
    let mut vars = [[0u8; 3]; 32];
    let mut setters = [0u8; 512];
    let mut places = [0u16; 8];
    match loader::load(file, &mut acts, &mut vars, &mut setters, &mut places) {
        Ok(read) => read.crews as u64,
        Err(_) => 1,
    }
}
