// The one sum of the library: totals low byte first, eight bytes at a turn.
//
// A total may be off by any multiple of 65535, but never from or to 0, so its fold is right: a carry out of 64 bits
// is added in again, and a number of eight bytes stands for its four words. To read low byte first exchanges the
// two bytes of a fold (RFC 1071, 2 B), so nothing is exchanged on the way.
ghost use Rattle.std.specs.Prelude.{◌≡◌, ◌+◌, ◌-◌, ◌*◌, ◌%◌, ◌<◌, ◌≤◌, true, false, length};
ghost use Rattle.std.specs.Int.{from_bool};
ghost use Rattle.sums.specs.Total.{weigh};
ghost use Rattle.sums.specs.Fold.{fold};
ghost use Rattle.sums.specs.Low.{two_at, four_at, eight_at, rest_at, Room};

// The total of some bytes, added to a seed: 128 bytes a turn, then 64, 32, 16 and 8 where the length has them, and
// one number at the end. That one always has something to add, so the bytes before the last are what is divided.
pub fn total(b: &[u8], seed: u64) -> u64
    ensures { fold result ≡ fold (seed + weigh true b.now) }
{
    if b.len() < 8 {
        return short(b, seed);
    }
    let n = b.len() - 1;
    let t = if n < 128 {
        seed
    } else {
        turns(&b[..n - n % 128], seed)
    };
    let t = last::<64>(b, n, t);
    let t = last::<32>(b, n, t);
    let t = last::<16>(b, n, t);
    ending(b, n, last::<8>(b, n, t))
}

// a + b with the carry added in again: an add and an adc.
pub fn carry(a: u64, b: u64) -> u64
    ensures { fold result ≡ fold (a + b) }
{
    let n = a.wrapping_add(b);
    n + u64::from(n < b)
}

// The numbers of two, four and eight bytes at i.
// kept: three functions, since each is one call of its own type's method, and a trait over the types would be longer.
pub fn le2(s: &[u8], i: usize) -> u16
    requires { i + 1 < length s.now }
    ensures { result ≡ two_at s.now i }
{
    u16::from_le_bytes([s[i], s[i + 1]])
}

pub fn le4(s: &[u8], i: usize) -> u32
    requires { i + 3 < length s.now }
    ensures { result ≡ four_at s.now i }
{
    u32::from_le_bytes([s[i], s[i + 1], s[i + 2], s[i + 3]])
}

pub fn le8(s: &[u8], i: usize) -> u64
    requires { i + 7 < length s.now }
    ensures { result ≡ eight_at s.now i }
{
    u64::from_le_bytes([
        s[i],
        s[i + 1],
        s[i + 2],
        s[i + 3],
        s[i + 4],
        s[i + 5],
        s[i + 6],
        s[i + 7],
    ])
}

// A total, and a carry out of it that is still to be added: there is room for it.
#[derive(Clone, Copy)]
struct Carried {
    n: u64,
    c: bool,
    ghost room: { Room n (from_bool c) },
}

impl Carried {
    fn new(n: u64) -> Carried
        ensures { (result.n ≡ n) × (result.c ≡ false) }
    {
        Carried { n, c: false }
    }

    // A full adder. LLVM makes one adc of it where the next one takes what it leaves, so a chain of them costs one
    // instruction for eight bytes; that takes both tests, joined by |.
    // kept: `carrying_add` promises the same, but LLVM makes no adc of it: 1470 instructions for 290 at 1500 bytes.
    fn step(self, v: u64) -> Carried
        ensures { fold (result.n + from_bool result.c) ≡ fold (self.n + from_bool self.c + v) }
    {
        let n = self.n.wrapping_add(v);
        let m = n.wrapping_add(u64::from(self.c));
        Carried {
            n: m,
            c: (n < v) | (m < n),
        }
    }

    fn total(self) -> u64
        ensures { result ≡ self.n + from_bool self.c }
    {
        self.n + u64::from(self.c)
    }
}

// The N bytes at i, added to a total: a chain, and then its carry.
pub fn add<const N: usize>(b: &[u8], i: usize, t: u64) -> u64
    requires { (i + N ≤ length b.now) × (N % 8 ≡ 0) }
    ensures { fold (result + rest_at b.now (i + N)) ≡ fold (t + rest_at b.now i) }
{
    let mut s = Carried::new(t);
    for word in b[i..i + N].as_chunks::<8>().0 {
        s = s.step(u64::from_le_bytes(*word));
    }
    s.total()
}

// The total of whole turns, added to a seed. Two chains a turn, which don't wait for each other's carries.
fn turns(b: &[u8], seed: u64) -> u64
    requires { length b.now % 128 ≡ 0 }
    ensures { fold result ≡ fold (seed + weigh true b.now) }
{
    let mut t = seed;
    let mut u = 0;
    for turn in b.as_chunks::<128>().0 {
        t = add::<64>(turn, 0, t);
        u = add::<64>(turn, 64, u);
    }
    carry(t, u)
}

// The N bytes, a power of 2, that stand where the larger powers of 2 in n end.
fn last<const N: usize>(b: &[u8], n: usize, t: u64) -> u64
    requires { (n < length b.now) × (N % 8 ≡ 0) × (0 < N) × (N ≤ 64) }
    ensures { fold (result + rest_at b.now (n - n % N)) ≡ fold (t + rest_at b.now (n - n % (2 * N))) }
{
    if n % (2 * N) < N {
        return t;
    }
    add::<N>(b, n - n % (2 * N), t)
}

// The last 1 to 8 bytes: the number of the last eight, from which those that were added before are shifted out.
fn ending(b: &[u8], n: usize, t: u64) -> u64
    requires { (n + 1 ≡ length b.now) × (7 ≤ n) }
    ensures { fold result ≡ fold (t + rest_at b.now (n - n % 8)) }
{
    carry(t, le8(b, n - 7) >> (8 * (7 - n % 8)))
}

// The total of fewer than eight bytes, added to a seed: four at once where there are so many, and then two at a turn.
fn short(b: &[u8], seed: u64) -> u64
    ensures { fold result ≡ fold (seed + weigh true b.now) }
{
    if b.len() < 4 {
        return few(b, seed);
    }
    few(&b[4..], carry(seed, u64::from(le4(b, 0))))
}

// The total of a few bytes, added to a seed: two at a turn.
fn few(b: &[u8], seed: u64) -> u64
    ensures { fold result ≡ fold (seed + weigh true b.now) }
{
    let mut t = seed;
    for word in b.as_chunks::<2>().0 {
        t = carry(t, u64::from(u16::from_le_bytes(*word)));
    }
    if b.len() % 2 == 0 {
        return t;
    }
    carry(t, u64::from(b[b.len() - 1]))
}
