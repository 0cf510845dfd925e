//! The integer types in which large tables are stored: `u32` and `usize`.

ghost use Rattle.std.specs.Prelude.{◌≡◌, ◌^◌, ◌-◌, ◌≤◌, ℕ};

/// An integer type in which the numbers of large tables are stored.
pub trait Width: Copy {
    /// In clauses, the number that a value of the type represents.
    ghost value: { Self → ℕ };

    ghost LIMIT: { ℕ };

    /// The largest number that fits the type.
    const LIMIT: usize;

    /// The number, which must fit, as a value of this type.
    fn of(number: usize) -> Self
        requires { number ≤ LIMIT }
        ensures { value result ≡ number };

    /// The number that the value represents.
    fn number(self) -> usize
        ensures { result ≡ value self };

    ghost clones_equal: { (x y : Self) → Self.is_clone x y → y ≡ x };
}

impl Width for u32 {
    ghost value = { λ x. x };

    ghost LIMIT = { 2 ^ 32 - 1 };

    const LIMIT: usize = 4_294_967_295;

    fn of(number: usize) -> u32 {
        number as u32
    }

    fn number(self) -> usize {
        self as usize
    }

    ghost clones_equal = { λ x y clone. clone };
}

impl Width for usize {
    ghost value = { λ x. x };

    ghost LIMIT = { 2 ^ 64 - 1 };

    const LIMIT: usize = usize::MAX;

    fn of(number: usize) -> usize {
        number
    }

    fn number(self) -> usize {
        self
    }

    ghost clones_equal = { λ x y clone. clone };
}
