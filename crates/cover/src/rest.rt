ghost use Rattle.std.specs.Prelude.{◌≡◌, ◌≤◌, [], min, length, drop, slice_range};
ghost use Rattle.cover.specs.Lists.{xored};

use std::marker::Model;

// The bytes of a block that are not used yet, which contracts see as their list.
#[derive(Drop)]
pub struct Rest {
    block: [u8; 16],
    from: usize,
    to: usize,
}

impl Model for Rest {
    ghost use Rattle.std.specs.Prelude.{ℕ, ◌≤◌, List, slice_range};

    ghost Value = { List ℕ };

    ghost view = { λ r. slice_range r.block r.from r.to };

    ghost invariant = { λ r. (r.from ≤ r.to) × (r.to ≤ 16) };
}

// XORs each byte with the key beside it. (By index: of a `zip` over `iter_mut` a loop knows only how many.)
pub fn xor(bytes: &mut [u8], keys: &[u8])
    requires { length bytes.old ≤ length keys.now }
    ensures { bytes.new ≡ xored bytes.old keys.now }
{
    for (i, b) in bytes.iter_mut().enumerate() {
        *b ^= keys[i];
    }
}

impl Rest {
    // No bytes.
    pub fn none() -> Rest
        ensures { result ≡ [] }
    {
        Rest {
            block: [0; 16],
            from: 0,
            to: 0,
        }
    }

    // Those of a block from one place to another.
    pub fn new(block: [u8; 16], from: usize, to: usize) -> Rest
        requires { (from ≤ to) × (to ≤ 16) }
        ensures { result ≡ slice_range block from to }
    {
        Rest { block, from, to }
    }

    // Covers with the first of these bytes, as many as there are on both sides, and answers how many.
    pub fn cover(&mut self, bytes: &mut [u8]) -> usize
        ensures count { result ≡ min (length self.old) (length bytes.old) }
        ensures rest { self.new ≡ drop result self.old }
        ensures covers { bytes.new ≡ xored bytes.old self.old }
    {
        let count = bytes.len().min(self.to - self.from);
        let keys = &self.block[self.from..self.to];
        xor(&mut bytes[..count], keys);
        self.from += count;
        count
    }
}
