//! Hashes of keys.

ghost use Rattle.std.specs.Prelude.{◌≡◌, ℕ, IsTrue};
ghost use Rattle.std.specs.Cmp.Rules.{hashing};
ghost use Rattle.std.proofs.Common.{rules};
ghost use Rattle.ps_keys.specs.Hashes.{folded, mixed};

/// An odd number without a pattern in its bits.
pub(crate) const MULTIPLIER: u64 = 0x9e37_79b9_7f4a_7c15;

/// A key with a hash for each seed.
pub trait Hashed: Eq + Copy {
    ghost hash: { ℕ → Self → ℕ };

    /// The hash for a seed.
    fn hash(&self, seed: u64) -> u64
        ensures { result ≡ hash seed self.now };

    ghost alike: { (seed : ℕ) (x y : Self) → IsTrue (Self.eq x y) → hash seed x ≡ hash seed y };
}

/// A hash of two numbers. If `second` is `MULTIPLIER`, it is 0 for every seed, so `second` should be a number that a
/// text cannot choose freely.
#[inline(always)]
pub fn mixed(seed: u64, first: u64, second: u64) -> u64
    ensures { result ≡ mixed seed first second }
{
    folded(seed ^ first, MULTIPLIER ^ second)
}

/// The halves of a product of 128 bits, joined by exclusive or.
#[inline(always)]
fn folded(a: u64, b: u64) -> u64
    ensures { result ≡ folded a b }
{
    let product = a as u128 * b as u128;
    (product & 0xFFFF_FFFF_FFFF_FFFF) as u64 ^ (product >> 64) as u64
}

/// A key that is one number.
pub trait Word: Eq + Copy {
    ghost word: { Self → ℕ };

    /// The number.
    fn word(&self) -> u64
        ensures { result ≡ word self.now };

    ghost equal: { (x y : Self) → IsTrue (Self.eq x y) → word x ≡ word y };
}

impl Word for u32 {
    ghost word = { λ key. key };

    ghost equal = { Prim.search (hashing, rules) };

    #[inline(always)]
    fn word(&self) -> u64 {
        *self as u64
    }
}

impl Word for u64 {
    ghost word = { λ key. key };

    ghost equal = { Prim.search (hashing, rules) };

    #[inline(always)]
    fn word(&self) -> u64 {
        *self
    }
}

impl Hashed for u64 {
    ghost hash = { λ seed key. mixed seed key 0 };

    ghost alike = { Prim.search (hashing, rules) };

    #[inline(always)]
    fn hash(&self, seed: u64) -> u64 {
        mixed(seed, *self, 0)
    }
}

impl<A: Word, B: Word> Hashed for (A, B) {
    ghost hash = { λ seed key. mixed seed (A.word key.0) (B.word key.1) };

    ghost alike = { Prim.search (hashing, rules, A.equal, B.equal) };

    #[inline(always)]
    fn hash(&self, seed: u64) -> u64 {
        mixed(seed, self.0.word(), self.1.word())
    }
}

impl<A: Word, B: Word, C: Word> Hashed for (A, B, C) {
    ghost hash = { λ seed key. mixed (mixed seed (A.word key.0) (B.word key.1)) (C.word key.2) 0 };

    ghost alike = { Prim.search (hashing, rules, A.equal, B.equal, C.equal) };

    #[inline(always)]
    fn hash(&self, seed: u64) -> u64 {
        mixed(mixed(seed, self.0.word(), self.1.word()), self.2.word(), 0)
    }
}
