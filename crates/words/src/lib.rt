// Bytes and the numbers they write: little-endian, two's complement where signed. Every call takes any slice and any
// offset: a byte past the end reads as 0, and bytes that do not fit are not written.
#![tactic(auto)]

ghost use Rattle.std.specs.Prelude.{◌≡◌, ℕ, List, get_or};
ghost use Rattle.words.specs.Words.{le_bytes, le_at, u16_at, u32_at, signed16, bits16, placed, same_bytes};

// The byte at an offset, 0 past the end.
pub fn byte_at(s: &[u8], at: usize) -> u8
    ensures { result ≡ get_or s.now at 0 }
{
    s.get(at).copied().unwrap_or(0)
}

// The four bytes of a number.
pub fn u32_bytes(v: u32) -> [u8; 4]
    ensures { result ≡ le_bytes 4 v }
{
    v.to_le_bytes()
}

// The signed number that 16 bits write. The library's own call, here and in `to_u16` and `u32_bytes`, under a contract in document 01's words.
pub fn to_i16(v: u16) -> i16
    ensures { result ≡ signed16 v }
{
    v.cast_signed()
}

// The 16 bits that write a signed number.
pub fn to_u16(z: i16) -> u16
    ensures { result ≡ bits16 z }
{
    z.cast_unsigned()
}

// Bytes written from an offset on, or nothing where they do not fit.
pub fn put_bytes(out: &mut [u8], at: usize, b: &[u8])
    ensures { out.new ≡ placed out.old at b.now }
{
    if at <= out.len() && b.len() <= out.len() - at {
        out[at..at + b.len()].copy_from_slice(b);
    }
}

// A number that a few bytes write.
pub trait Number {
    // The bytes that write it.
    ghost bytes: { Self → List ℕ };

    // The number that the bytes at an offset write.
    ghost read: { List ℕ → ℕ → Self };

    fn put(self, out: &mut [u8], at: usize)
        ensures { out.new ≡ placed out.old at (bytes self) };

    fn read_at(s: &[u8], at: usize) -> Self
        ensures { result ≡ read s.now at };
}

impl Number for u16 {
    ghost bytes = { le_bytes 2 };

    ghost read = { u16_at };

    fn put(self, out: &mut [u8], at: usize) {
        put_bytes(out, at, &self.to_le_bytes());
    }

    fn read_at(s: &[u8], at: usize) -> u16 {
        if s.len() <= at {
            return 0;
        }
        u16::from_le_bytes([byte_at(s, at), byte_at(s, at + 1)])
    }
}

impl Number for u32 {
    ghost bytes = { le_bytes 4 };

    ghost read = { u32_at };

    #[tactic(auto, unfolding(crate::specs::Words::le_bytes))]
    fn put(self, out: &mut [u8], at: usize) {
        put_bytes(out, at, &u32_bytes(self));
    }

    fn read_at(s: &[u8], at: usize) -> u32 {
        if s.len() <= at {
            return 0;
        }
        u32::from_le_bytes([
            byte_at(s, at),
            byte_at(s, at + 1),
            byte_at(s, at + 2),
            byte_at(s, at + 3),
        ])
    }
}

impl Number for u64 {
    ghost bytes = { le_bytes 8 };

    ghost read = { le_at 8 };

    fn put(self, out: &mut [u8], at: usize) {
        put_bytes(out, at, &self.to_le_bytes());
    }

    fn read_at(s: &[u8], at: usize) -> u64 {
        if s.len() <= at {
            return 0;
        }
        u64::from_le_bytes([
            byte_at(s, at),
            byte_at(s, at + 1),
            byte_at(s, at + 2),
            byte_at(s, at + 3),
            byte_at(s, at + 4),
            byte_at(s, at + 5),
            byte_at(s, at + 6),
            byte_at(s, at + 7),
        ])
    }
}

impl Number for i16 {
    ghost bytes = { λ z. le_bytes 2 (bits16 z) };

    ghost read = { λ l at. signed16 (u16_at l at) };

    fn put(self, out: &mut [u8], at: usize) {
        to_u16(self).put(out, at);
    }

    fn read_at(s: &[u8], at: usize) -> i16 {
        to_i16(u16::read_at(s, at))
    }
}

// The bytes of a number written from an offset on, or nothing where they do not fit.
pub fn put<N: Number>(out: &mut [u8], at: usize, v: N)
    ensures { out.new ≡ placed out.old at (N.bytes v) }
{
    v.put(out, at);
}

// The number that the bytes at an offset write.
pub fn number_at<N: Number>(s: &[u8], at: usize) -> N
    ensures { result ≡ N.read s.now at }
{
    N::read_at(s, at)
}

// Whether two slices hold the same bytes. There is no early end: with one the bytes would be compared one at a time.
pub fn same_bytes(a: &[u8], b: &[u8]) -> bool
    ensures { result ≡ same_bytes a.now b.now }
{
    if a.len() != b.len() {
        return false;
    }
    let mut differ = 0u8;
    for (x, y) in a.iter().zip(b) {
        differ |= x ^ y;
    }
    differ == 0
}
