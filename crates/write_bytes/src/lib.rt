// Internal: bytes put one after another into an array.
#![tactic(auto)]

ghost use Rattle.std.specs.Prelude.{◌≡◌, ◌++◌, [], ◌+◌, ◌<◌, ◌≤◌, length, set, take};

use std::marker::Model;

// Bytes put one after another, in an array that has room for N.
#[derive(Drop)]
pub struct Buffer<const N: usize> {
    bytes: [u8; N],
    len: usize,
}

impl<const N: usize> Model for Buffer<N> {
    ghost use Rattle.std.specs.Prelude.{◌≤◌, List, ℕ, take};

    ghost Value = { List ℕ };

    ghost view = { λ b. take b.len b.bytes };

    ghost invariant = { λ b. b.len ≤ N };
}

impl<const N: usize> Buffer<N> {
    // No bytes yet.
    pub fn new() -> Buffer<N>
        ensures { result ≡ [] }
    {
        Buffer {
            bytes: [0; N],
            len: 0,
        }
    }

    // The bytes of a text, after those that are there.
    pub fn put(&mut self, text: &[u8])
        requires { length self.old + length text.now ≤ N }
        ensures bytes { self.new ≡ self.old ++ text.now }
        ensures len { length self.new ≡ length self.old + length text.now }
    {
        let end = self.len + text.len();
        let bytes = &mut self.bytes[..];
        bytes[self.len..end].copy_from_slice(text);
        self.len = end;
    }

    // So many places more, whose bytes are to be set.
    pub fn lengthen(&mut self, count: usize)
        requires { length self.old + count ≤ N }
        ensures bytes { take (length self.old) self.new ≡ self.old }
        ensures len { length self.new ≡ length self.old + count }
    {
        self.len += count;
    }

    // Another byte at a place.
    pub fn set(&mut self, i: usize, byte: u8)
        requires { i < length self.old }
        ensures { self.new ≡ set self.old i byte }
    {
        self.bytes[i] = byte;
    }

    // The bytes so far.
    pub fn as_slice(&self) -> &[u8]
        ensures bytes { result.now ≡ self.now }
        ensures fits { length result.now ≤ N }
    {
        &self.bytes[..self.len]
    }

    // The bytes so far, to be written over.
    pub fn as_mut_slice(&mut self) -> &mut [u8]
        ensures { result.now ≡ self.old }
    {
        &mut self.bytes[..self.len]
    }
}
