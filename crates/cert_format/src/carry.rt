ghost use Rattle.std.specs.Prelude.{◌≡◌, ◌+◌, ◌≤◌, ◌++◌, [], length};

use std::marker::Model;

/// The bytes of a part of which not all were fed, seen as their list.
#[derive(Drop)]
pub(crate) struct Carry {
    bytes: [u8; 61],
    count: usize,
}

impl Model for Carry {
    ghost use Rattle.std.specs.Prelude.{ℕ, List, take, ◌≤◌};

    ghost Value = { List ℕ };

    ghost view = { λ c. take c.count c.bytes };

    ghost invariant = { λ c. c.count ≤ 61 };
}

impl Carry {
    pub(crate) fn new() -> Carry
        ensures { result ≡ [] }
    {
        Carry {
            bytes: [0; 61],
            count: 0,
        }
    }

    pub(crate) fn len(&self) -> usize
        ensures count { result ≡ length self.now }
        ensures few { result ≤ 61 }
    {
        self.count
    }

    pub(crate) fn as_slice(&self) -> &[u8]
        ensures { result.now ≡ self.now }
    {
        &self.bytes[..self.count]
    }

    /// Adds bytes, for which there is room.
    pub(crate) fn add(&mut self, bytes: &[u8])
        requires { length self.old + length bytes.now ≤ 61 }
        ensures { self.new ≡ self.old ++ bytes.now }
    {
        let count = self.count + bytes.len();
        self.bytes[self.count..count].copy_from_slice(bytes);
        self.count = count;
    }

    pub(crate) fn clear(&mut self)
        ensures { self.new ≡ [] }
    {
        self.count = 0;
    }
}
