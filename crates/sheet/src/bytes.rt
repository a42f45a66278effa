// Bytes and words of a sheet. Every reading is total: past the end it is 0, so that no caller owes a bound.
ghost use Rattle.std.specs.Prelude.{◌≡◌, ◌+◌, ◌≤◌, length};
ghost use Rattle.sheet.specs.Bytes.{byte_at, word_at, whole_at, mark, marked_at};

// Byte k of the record at a place.
pub fn byte(s: &[u8], at: usize, k: usize) -> u8
    ensures { result ≡ byte_at s.now at k }
{
    let n = s.len();
    if n <= k {
        return 0;
    }
    if n - k <= at {
        return 0;
    }
    s[at + k]
}

// The little-endian word at byte k of the record at a place.
pub fn word(s: &[u8], at: usize, k: u8) -> u16
    ensures { result ≡ word_at s.now at k }
{
    let n = k as usize;
    let low = u16::from(byte(s, at, n));
    let high = u16::from(byte(s, at, n + 1));
    low + 256 * high
}

// The same where both bytes stand, read with no test.
pub fn word_whole(s: &[u8], at: usize, k: usize) -> u16
    requires { at + k + 2 ≤ length s.now }
    ensures { result ≡ word_at s.now at k }
{
    u16::from(s[at + k]) + 256 * u16::from(s[at + k + 1])
}

// Whether n bytes stand whole from a place.
pub fn whole(s: &[u8], at: usize, n: usize) -> bool
    ensures { result ≡ whole_at s.now at n }
{
    let len = s.len();
    if len < n {
        return false;
    }
    at <= len - n
}

// Whether a mark stands at a place.
pub fn marked(s: &[u8], at: usize, a: u8, b: u8) -> bool
    ensures { result ≡ marked_at s.now at (mark a b) }
{
    (byte(s, at, 0) == a) & (byte(s, at, 1) == b)
}
