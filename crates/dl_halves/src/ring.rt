//! Arithmetic modulo `2^128`, with and without a count of products.

ghost use Rattle.std.specs.Prelude.{◌≡◌, ℕ, ◌+◌, ◌-◌, ◌*◌, ◌%◌, ◌^◌, ◌<◌, ◌≤◌, min};
ghost use Rattle.dl_halves.specs.Modulo.{IsSame};

/// Numbers modulo `2^128`, of which products are counted.
pub trait Ring {
    /// An element of the ring.
    type Elem: Copy;

    // the whole number below 2^128 that an element means, and the number of products so far
    ghost value: { Self.Elem → ℕ };

    ghost products: { Self → ℕ };

    /// The number 0.
    fn zero(&mut self) -> Self::Elem
        ensures value { value result ≡ 0 }
        ensures products { products self.new ≡ products self.old };

    /// The sum modulo `2^128`.
    fn add(&mut self, a: Self::Elem, b: Self::Elem) -> Self::Elem
        ensures value { IsSame (value result) (value a + value b) }
        ensures products { products self.new ≡ products self.old };

    /// The difference `a - b` modulo `2^128`.
    fn sub(&mut self, a: Self::Elem, b: Self::Elem) -> Self::Elem
        ensures value { IsSame (value result + value b) (value a) }
        ensures products { products self.new ≡ products self.old };

    /// The product modulo `2^128`. It raises the count of products by at most one.
    fn mul(&mut self, a: Self::Elem, b: Self::Elem) -> Self::Elem
        ensures value { IsSame (value result) (value a * value b) }
        ensures products { products self.new ≤ products self.old + 1 };

    ghost small: { (x : Self.Elem) → value x < 2 ^ 128 };
}

/// The words of 128 bits. No product is counted.
#[derive(Clone, Copy, Debug)]
pub struct Words;

impl Ring for Words {
    ghost use Rattle.dl_halves.specs.Modulo.{remainder_small};

    type Elem = u128;

    ghost value = { λ x. x % 2 ^ 128 };

    ghost products = { λ words. 0 };

    fn zero(&mut self) -> u128 {
        0
    }

    fn add(&mut self, a: u128, b: u128) -> u128 {
        a.wrapping_add(b)
    }

    fn sub(&mut self, a: u128, b: u128) -> u128 {
        a.wrapping_sub(b)
    }

    fn mul(&mut self, a: u128, b: u128) -> u128 {
        a.wrapping_mul(b)
    }

    ghost small = { remainder_small };
}

/// The words of 128 bits, with the number of products so far, which stays at `2^64 - 1` once it is
/// reached.
#[derive(Clone, Copy, Debug)]
pub struct Counted {
    count: u64,
}

impl Counted {
    /// Words with no product so far.
    pub fn new() -> Counted
        ensures { result.count ≡ 0 }
    {
        Counted { count: 0 }
    }

    /// The number of products so far.
    pub fn count(&self) -> u64
        ensures { result ≡ self.now.count }
    {
        self.count
    }
}

impl Ring for Counted {
    ghost use Rattle.dl_halves.specs.Modulo.{remainder_small};

    type Elem = u128;

    ghost value = { λ x. x % 2 ^ 128 };

    ghost products = { λ counted. counted.count };

    fn zero(&mut self) -> u128 {
        0
    }

    fn add(&mut self, a: u128, b: u128) -> u128 {
        a.wrapping_add(b)
    }

    fn sub(&mut self, a: u128, b: u128) -> u128 {
        a.wrapping_sub(b)
    }

    fn mul(&mut self, a: u128, b: u128) -> u128
        ensures value { IsSame (result % 2 ^ 128) (a % 2 ^ 128 * (b % 2 ^ 128)) }
        ensures products { self.new.count ≤ self.old.count + 1 }
        ensures counted { self.new.count ≡ min (self.old.count + 1) (2 ^ 64 - 1) }
    {
        self.count = self.count.saturating_add(1);
        a.wrapping_mul(b)
    }

    ghost small = { remainder_small };
}
