// The parts of a program's input: numbers of two, four and eight bytes, where the file ends, where a part ends.
#![tactic(auto)]

ghost use Rattle.std.specs.Prelude.{◌+◌, ◌-◌, ◌≤◌, ◌<◌, ◌≡◌, length};
ghost use Rattle.intake.specs.Numbers.{pair_at, four_at_lem, eight_at_lem};

// Two bytes, most significant first.
pub fn pair_at(input: &[u8], at: usize) -> usize
    requires { at + 1 < length input.now }
    ensures { (result < 65536) × (result ≡ pair_at input.now at) }
{
    usize::from(u16::from_be_bytes([input[at], input[at + 1]]))
}

pub fn four_at(input: &[u8], at: usize) -> usize
    requires { at + 3 < length input.now }
    ensures { (result < 4294967296) × (result ≡ four_at_lem input.now at) }
{
    let bytes = [input[at], input[at + 1], input[at + 2], input[at + 3]];
    u32::from_be_bytes(bytes) as usize
}

pub fn eight_at(input: &[u8], at: usize) -> u64
    requires { at + 7 < length input.now }
    ensures { result ≡ eight_at_lem input.now at }
{
    let high = four_at(input, at) as u64;
    let low = four_at(input, at + 4) as u64;
    high << 32 | low
}

// Where the file ends, of an input with such a head and room for `len` bytes, if n bytes came.
pub fn file_end(head: usize, n: usize, len: usize) -> usize
    requires { (head ≤ len) × (n ≤ len) }
    ensures { (head ≤ result) × (result ≤ len) × (result - head ≡ n - head) }
{
    n.max(head)
}

// Where so many bytes end, of those that came.
pub fn part_end(from: usize, many: usize, end: usize) -> usize
    requires { from ≤ end }
    ensures { (from ≤ result) × (result ≤ end) × (result - from ≡ many - (many - (end - from))) }
{
    from + many.min(end - from)
}
