// Numbers at an offset of a slice, low byte first: plain sums of bytes, which compile to single loads and stores. They stay so, since each message passes here.
ghost use Rattle.std.specs.Prelude.{◌≡◌, ◌+◌, ◌<◌, ◌≤◌, length};
ghost use Rattle.memory.specs.Bytes.{number_at, low_bytes, put};

#[tactic(auto, using(crate::proofs::Numbers::number_4))]
pub fn get4(s: &[u8], at: usize) -> u32
    requires { at + 4 ≤ length s.now }
    ensures { result ≡ number_at 4 s.now at }
{
    u32::from(s[at])
        + u32::from(s[at + 1]) * 256
        + u32::from(s[at + 2]) * 65536
        + u32::from(s[at + 3]) * 16777216
}

pub fn get5(s: &[u8], at: usize) -> u64
    requires { at + 5 ≤ length s.now }
    ensures { result ≡ number_at 5 s.now at }
{
    u64::from(get4(s, at)) + u64::from(s[at + 4]) * 4294967296
}

pub fn get8(s: &[u8], at: usize) -> u64
    requires { at + 8 ≤ length s.now }
    ensures { result ≡ number_at 8 s.now at }
{
    u64::from(get4(s, at)) + u64::from(get4(s, at + 4)) * 4294967296
}

// The byte before is read too, so that it is a single load.
pub fn get7(s: &[u8], at: usize) -> u64
    requires { (1 ≤ at) × (at + 7 ≤ length s.now) }
    ensures { result ≡ number_at 7 s.now at }
{
    get8(s, at - 1) / 256
}

pub fn put4(s: &mut [u8], at: usize, x: u32)
    requires { at + 4 ≤ length s.old }
    ensures { s.new ≡ put s.old at (low_bytes 4 x) }
{
    s[at] = (x % 256) as u8;
    s[at + 1] = (x / 256 % 256) as u8;
    s[at + 2] = (x / 65536 % 256) as u8;
    s[at + 3] = (x / 16777216 % 256) as u8;
}

pub fn put5(s: &mut [u8], at: usize, x: u64)
    requires { at + 5 ≤ length s.old }
    ensures { s.new ≡ put s.old at (low_bytes 5 x) }
{
    put4(s, at, (x % 4294967296) as u32);
    s[at + 4] = (x / 4294967296 % 256) as u8;
}

// The fourth byte is written twice, so that it is two stores.
pub fn put7(s: &mut [u8], at: usize, x: u64)
    requires { at + 7 ≤ length s.old }
    ensures { s.new ≡ put s.old at (low_bytes 7 x) }
{
    put4(s, at, (x % 4294967296) as u32);
    put4(s, at + 3, (x / 16777216 % 4294967296) as u32);
}

pub fn put8(s: &mut [u8], at: usize, x: u64)
    requires { at + 8 ≤ length s.old }
    ensures { s.new ≡ put s.old at (low_bytes 8 x) }
{
    put4(s, at, (x % 4294967296) as u32);
    put4(s, at + 4, (x / 4294967296) as u32);
}
