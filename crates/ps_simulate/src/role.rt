//! Controllers and environments.

/// The role of a circuit.
#[derive(Clone, Copy, Debug, PartialEq, Eq)]
pub enum Role {
    /// Its outputs are the controllable propositions, its inputs the others.
    Controller,
    /// Its inputs are the controllable propositions, its outputs the others.
    Environment,
}

impl Role {
    ghost use Rattle.std.specs.Prelude.{◌≡◌};
    ghost use Rattle.ps_simulate.specs.Symbols as symbols;

    /// Whether the inputs are the controllable propositions.
    pub fn reads_controllable(self) -> bool
        ensures { result ≡ symbols.reads_controllable self }
    {
        match self {
            Role::Controller => false,
            Role::Environment => true,
        }
    }

    /// Whether the outputs are the controllable propositions.
    pub fn sets_controllable(self) -> bool
        ensures { result ≡ symbols.sets_controllable self }
    {
        match self {
            Role::Controller => true,
            Role::Environment => false,
        }
    }
}
