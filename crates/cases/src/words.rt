// The words and arguments of a line, and parts of slices. What is not there is 0 or empty, and what does not fit is left out.
ghost use Rattle.std.specs.Prelude.{◌<◌, ◌≤◌, length};

// The line's first word as a number: its letters, of a longer one the last eight, as bytes of a number; run is 0x72756e. A word stays
// a number, since a longer one that ends in eight letters of a call makes that call, and the program answers every input as it did.
pub(crate) fn word(line: &[u8]) -> u64 {
    let mut value = 0u64;
    for byte in line {
        if *byte == b' ' {
            return value;
        }
        value = value % 72057594037927936 * 256 + u64::from(*byte);
    }
    value
}

// The k-th argument, a number. One of more than 64 bits comes out as another.
pub(crate) fn number(line: &[u8], k: usize) -> u64 {
    let mut value = 0u64;
    for byte in behind(line, k) {
        match *byte {
            b'0'..=b'9' => {
                let digit = u64::from(*byte - b'0');
                value = (value % 1844674407370955162 * 10).wrapping_add(digit);
            }
            _ => return value,
        }
    }
    value
}

// The k-th argument, the line's last: bytes, put into a slice at a place. Answers the place after them.
pub(crate) fn bytes(line: &[u8], k: usize, into: &mut [u8], n: usize) -> usize {
    let mut n = n;
    for pair in behind(line, k).chunks(2) {
        let [high, low] = *pair else {
            return n;
        };
        n = put(into, n, ((16 * digit(high) + digit(low)) % 256) as u8);
    }
    n
}

// What the line has behind its k-th space.
fn behind(line: &[u8], k: usize) -> &[u8]
    ensures { length result.now ≤ length line.now }
{
    let mut spaces = k;
    for (i, byte) in line.iter().enumerate() {
        if spaces == 0 {
            return &line[i..];
        }
        if *byte == b' ' {
            spaces -= 1;
        }
    }
    &[]
}

// What a digit counts; anything else counts 255.
fn digit(c: u8) -> u16
    ensures { result < 256 }
{
    match c {
        b'0'..=b'9' => u16::from(c - b'0'),
        b'a'..=b'f' => u16::from(c - b'a') + 10,
        _ => 255,
    }
}

fn put(into: &mut [u8], n: usize, byte: u8) -> usize {
    if n < into.len() {
        into[n] = byte;
        return n + 1;
    }
    n
}

// Puts the byte that stands so far back behind the first n. Answers the place after it.
pub(crate) fn again(into: &mut [u8], n: usize, back: usize) -> usize {
    if back < 1 || n < back || into.len() < n {
        return n;
    }
    let byte = into[n - back];
    put(into, n, byte)
}

pub(crate) fn front(s: &[u8], n: usize) -> &[u8] {
    s.get(..n).unwrap_or(s)
}

// What follows the front.
pub(crate) fn rest(s: &[u8], n: usize) -> &[u8] {
    s.get(n..).unwrap_or(&[])
}
