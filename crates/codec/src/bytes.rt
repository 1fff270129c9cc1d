// Integers stored most significant byte first, copies and fills. Loads read `be_at`, stores are splices of `bytes_of`.
ghost use Rattle.std.specs.Prelude.{◌≡◌, ◌+◌, ◌-◌, ◌≤◌, ◌<◌, length, drop, replicate};
ghost use Rattle.lists.specs.Equal.{eq_list};
ghost use Rattle.lists.specs.Bytes.{be_at, bytes_of};
ghost use Rattle.lists.specs.Splice.{splice};

pub fn be8(s: &[u8], i: usize) -> u32
    requires { i < length s.now }
    ensures { result ≡ be_at 1 s.now i }
{
    s[i] as u32
}

pub fn be16(s: &[u8], i: usize) -> u32
    requires { i + 2 ≤ length s.now }
    ensures { result ≡ be_at 2 s.now i }
{
    u16::from_be_bytes([s[i], s[i + 1]]) as u32
}

pub fn be32(s: &[u8], i: usize) -> u32
    requires { i + 4 ≤ length s.now }
    ensures { result ≡ be_at 4 s.now i }
{
    u32::from_be_bytes([s[i], s[i + 1], s[i + 2], s[i + 3]])
}

pub fn be64(s: &[u8], i: usize) -> u64
    requires { i + 8 ≤ length s.now }
    ensures { result ≡ be_at 8 s.now i }
{
    u64::from_be_bytes([
        s[i],
        s[i + 1],
        s[i + 2],
        s[i + 3],
        s[i + 4],
        s[i + 5],
        s[i + 6],
        s[i + 7],
    ])
}

pub fn put8(d: &mut [u8], i: usize, v: u32)
    requires { (i < length d.old) × (v < 256) }
    ensures { d.new ≡ splice d.old i (bytes_of 1 v) }
{
    d[i] = v as u8;
}

pub fn put16(d: &mut [u8], i: usize, v: u32)
    requires { (i + 2 ≤ length d.old) × (v < 65536) }
    ensures { d.new ≡ splice d.old i (bytes_of 2 v) }
{
    d[i..i + 2].copy_from_slice(&(v as u16).to_be_bytes());
}

pub fn put32(d: &mut [u8], i: usize, v: u32)
    requires { i + 4 ≤ length d.old }
    ensures { d.new ≡ splice d.old i (bytes_of 4 v) }
{
    d[i..i + 4].copy_from_slice(&v.to_be_bytes());
}

pub fn put64(d: &mut [u8], i: usize, v: u64)
    requires { i + 8 ≤ length d.old }
    ensures { d.new ≡ splice d.old i (bytes_of 8 v) }
{
    d[i..i + 8].copy_from_slice(&v.to_be_bytes());
}

// Copies all of s into d from place i. `copy_from_slice` would be a call of memmove, which the archive is not to ask for.
pub fn copy_in(d: &mut [u8], i: usize, s: &[u8])
    requires { i + length s.now ≤ length d.old }
    ensures { d.new ≡ splice d.old i s.now }
{
    for k in 0..s.len() {
        d[i + k] = s[k];
    }
}

// Zeroes d from place i to its end.
pub fn clear(d: &mut [u8], i: usize)
    requires { i ≤ length d.old }
    ensures { d.new ≡ splice d.old i (replicate (length d.old - i) 0) }
{
    d[i..].fill(0);
}

// Two slices hold the same bytes. All are compared, with no way out of the loop, so that it runs on many bytes at a time.
pub fn same(a: &[u8], b: &[u8]) -> bool
    ensures { result ≡ eq_list a.now b.now }
{
    if a.len() != b.len() {
        return false;
    }
    let mut ok = true;
    for (x, y) in a.iter().zip(b) {
        ok &= x == y;
    }
    ok
}

// From place i on there are zeros only. All are looked at, as in `same`.
pub fn zeros(s: &[u8], i: usize) -> bool
    requires { i ≤ length s.now }
    ensures { result ≡ eq_list (drop i s.now) (replicate (length s.now - i) 0) }
{
    let mut ok = true;
    for byte in &s[i..] {
        ok &= *byte == 0;
    }
    ok
}
