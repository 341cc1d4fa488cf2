// A text in fixed memory: at most N bytes. What does not fit is left out. Behind the text the array holds 0x00, so that its bytes alone
// give the whole value back, which a copy needs.
ghost use Rattle.std.specs.Prelude.{◌≡◌, ◌≤◌, ℕ, List, [], ◌++◌, length, take};
ghost use Rattle.std.proofs.Common.{sym};
ghost use Rattle.blackbox.specs.Page.{padded};
ghost use Rattle.digits.specs.Decimal.{decimal_of};
ghost use Rattle.digits.specs.Held.{held_whole};

use itoa::Buffer;
use std::marker::Model;

#[derive(Clone, Copy)]
pub struct Text<const N: usize> {
    len: usize,
    bytes: [u8; N],
}

// Clauses see the bytes of the text.
impl<const N: usize> Model for Text<N> {
    ghost Value = { List ℕ };

    ghost view = { λ t. take t.len t.bytes };

    ghost invariant = { λ t. (t.len ≤ N) × (t.bytes ≡ padded N 0 (take t.len t.bytes)) };

    ghost inverse = { λ s. record { len = length s; bytes = padded N 0 s } };

    ghost inverse_ok = { λ t h i. record { len = held_whole N t.len t.bytes h.0 h.1 i; bytes = sym h.1 i } };
}

impl<const N: usize> Text<N> {
    #[tactic(auto, using(crate::proofs::Padded::empty_padded))]
    pub fn new() -> Text<N>
        ensures { result ≡ [] }
    {
        Text {
            len: 0,
            bytes: [0; N],
        }
    }

    pub fn len(&self) -> usize
        ensures { result ≡ length self.now }
    {
        self.as_slice().len()
    }

    pub fn as_slice(&self) -> &[u8]
        ensures { result.now ≡ self.now }
    {
        &self.bytes[..self.len]
    }

    // The text with 0x00 behind it.
    pub fn padded(&self) -> [u8; N]
        ensures { result ≡ padded N 0 self.now }
    {
        let mut row = [0; N];
        row[..self.len].copy_from_slice(self.as_slice());
        row
    }

    // Bytes behind the text.
    pub fn push(&mut self, bytes: &[u8])
        ensures { self.new ≡ take N (self.old ++ bytes.now) }
    {
        let n = bytes.len().min(N - self.len);
        let text = &mut self.bytes[..];
        text[self.len..self.len + n].copy_from_slice(&bytes[..n]);
        self.len += n;
    }

    // A number behind the text, as Rust prints it: no leading zeros, and "0" for 0.
    #[tactic(auto, using(crate::proofs::Pushed::numbers))]
    pub fn push_number(&mut self, n: u32)
        ensures { self.new ≡ take N (self.old ++ decimal_of n) }
    {
        self.push(Buffer::new().format(n).as_bytes());
    }
}
