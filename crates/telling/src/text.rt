// Text, put at a place of a buffer. Each function answers the place after it.
ghost use Rattle.std.specs.Prelude.{◌+◌, ◌≤◌, length};
ghost use Rattle.telling.specs.Text.{Appends, decimal, spaced as Text·spaced};

pub fn put(out: &mut [u8], at: usize, bytes: &[u8]) -> usize
    requires { at + length bytes.now ≤ length out.old }
    ensures { Appends out.old at bytes.now out.new result }
{
    let end = at + bytes.len();
    out[at..end].copy_from_slice(bytes);
    end
}

// A number in decimal.
pub fn number(out: &mut [u8], at: usize, n: u64) -> usize
    requires { at + length (decimal n) ≤ length out.old }
    ensures { Appends out.old at (decimal n) out.new result }
{
    let mut digits = [0u8; 20];
    let k = io::decimal(n, &mut digits);
    put(out, at, &digits[..k])
}

// The same after a space.
pub fn spaced(out: &mut [u8], at: usize, n: u64) -> usize
    requires { at + length (Text·spaced n) ≤ length out.old }
    ensures { Appends out.old at (Text·spaced n) out.new result }
{
    let next = put(out, at, b" ");
    number(out, next, n)
}
