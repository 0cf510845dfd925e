//! The numbers in the header.

ghost use Rattle.std.specs.Prelude.{◌<◌, ◌^◌};

/// The header of an AIGER text. A count that does not fit into 64 bits is the greatest number of 64 bits.
#[derive(Clone, Copy)]
pub struct Header {
    /// M, the greatest variable.
    pub most: u32,
    /// I, the number of input lines.
    pub inputs: u64,
    /// L, of latch lines.
    pub latches: u64,
    /// O, of output lines.
    pub outputs: u64,
    /// A, of gate lines.
    pub gates: u64,
    /// So that the greatest literal fits into 32 bits.
    pub ghost small: { most < 2 ^ 31 },
}
