//! A builder of circuits, which makes each gate only once.

ghost use Rattle.std.specs.Prelude.{◌≡◌, ℕ, ◌+◌, ◌*◌, ◌^◌, ◌<◌, ◌≤◌, ◌&&◌, ◌||◌, Bool, not, cond, [], ◌∷◌, length};
ghost use Rattle.std.specs.Prelude.{slice_get, All, Some, IfOk};
ghost use Rattle.std.specs.Cmp.Rules.{hashing};
ghost use Rattle.std.specs.List.{list_any};
ghost use Rattle.std.proofs.Common.{rules};
ghost use Rattle.ps_circuit.specs.Building.{Drafted, AreSides, IsHeld, IsSoundDraft, bit, variables_of};
ghost use Rattle.ps_circuit.specs.Literals.{negated};
ghost use Rattle.ps_circuit.specs.Gates.{MakesGates, and_of, chosen_of, gate_of, has_sides, mux_of, or_of};

use crate::encode_fault::EncodeFault;
use crate::literal::Literal;
use ps_keys::{Hashed, KeyList, mixed};
use std::alloc::Global;
use std::marker::Model;

/// The most variables of a circuit, so that the greatest literal fits into 32 bits.
const MOST_VARIABLES: u32 = 2147483647;

/// What a gate reads, with the greater literal first.
#[derive(Debug, Clone, Copy, PartialEq, Eq, Hash)]
pub struct Sides {
    pub first: Literal,
    pub second: Literal,
}

impl Hashed for Sides {
    ghost use Rattle.ps_keys.specs.Hashes.{mixed};

    ghost hash = { λ seed sides. mixed seed sides.first sides.second };

    ghost alike = { Prim.search (hashing, rules) };

    #[inline(always)]
    fn hash(&self, seed: u64) -> u64 {
        mixed(
            seed,
            u64::from(self.first.number()),
            u64::from(self.second.number()),
        )
    }
}

/// Makes and-gates over given variables. A gate that reads two literals is made once, with the next variable. No call
/// changes an existing gate; one fails only if out of memory, or if 2147483647 variables exist and another is needed.
#[derive(Drop)]
pub struct Builder {
    given: u32,
    gates: KeyList<Sides>,
}

impl Model for Builder {
    ghost Value = { Drafted };

    ghost view = { λ b. record { given = b.given; gates = b.gates } };

    ghost invariant = { λ b. IsSoundDraft (record { given = b.given; gates = b.gates }) };
}

impl Builder {
    /// A builder without gates, over the variables from 1 to `given`.
    pub fn new(alloc: Global, given: u32) -> Self
        requires { given < 2 ^ 31 }
        ensures given { result.given ≡ given }
        ensures empty { result.gates ≡ [] }
    {
        Builder {
            given,
            gates: KeyList::new(alloc),
        }
    }

    /// How many variables there are: the given ones and the gates.
    pub fn variables(&self) -> u32
        ensures variables { result ≡ variables_of self.now }
        ensures sound { IsSoundDraft self.now }
    {
        self.given + self.gates.len() as u32
    }

    /// How many were given.
    pub fn given(&self) -> u32
        ensures given { result ≡ self.now.given }
        ensures sound { IsSoundDraft self.now }
    {
        self.given
    }

    /// The gates, in the order of their variables.
    pub fn gates(&self) -> &[Sides]
        ensures gates { result.now ≡ self.now.gates }
        ensures sound { IsSoundDraft self.now }
    {
        self.gates.as_slice()
    }

    /// A literal that is true exactly if both are.
    #[tactic(auto, unfolding(crate::specs::Gates::and_of))]
    pub fn and(&mut self, x: Literal, y: Literal) -> Result<Literal, EncodeFault>
        requires { All (IsHeld self.old) (x ∷ y ∷ []) }
        ensures { MakesGates self.old self.new result (and_of self.old x y)
            (λ v. bit v x && bit v y) }
    {
        if x == Literal::FALSE || y == Literal::FALSE || x == y.negated() {
            return Ok(Literal::FALSE);
        }
        if x == Literal::TRUE || x == y {
            return Ok(y);
        }
        if y == Literal::TRUE {
            return Ok(x);
        }
        if x > y {
            self.gate(Sides {
                first: x,
                second: y,
            })
        } else {
            self.gate(Sides {
                first: y,
                second: x,
            })
        }
    }

    /// A literal that is true exactly if one of them is.
    #[tactic(auto, unfolding(crate::specs::Gates::or_of))]
    pub fn or(&mut self, x: Literal, y: Literal) -> Result<Literal, EncodeFault>
        requires { All (IsHeld self.old) (x ∷ y ∷ []) }
        ensures { MakesGates self.old self.new result (or_of self.old x y)
            (λ v. bit v x || bit v y) }
    {
        let neither = self.and(x.negated(), y.negated())?;
        Ok(neither.negated())
    }

    /// A literal with the value of `high` if `s` is true, and else of `low` (a multiplexer).
    #[tactic(auto, unfolding(crate::specs::Gates::mux_of))]
    pub fn mux(&mut self, s: Literal, high: Literal, low: Literal) -> Result<Literal, EncodeFault>
        requires { All (IsHeld self.old) (s ∷ high ∷ low ∷ []) }
        ensures { MakesGates self.old self.new result (mux_of self.old s high low)
            (λ v. cond (bit v s) (bit v high) (bit v low)) }
    {
        if high == low {
            return Ok(high);
        }
        if high == Literal::TRUE && low == Literal::FALSE {
            return Ok(s);
        }
        if high == Literal::FALSE && low == Literal::TRUE {
            return Ok(s.negated());
        }
        if high == Literal::TRUE {
            return self.or(s, low);
        }
        if high == Literal::FALSE {
            return self.and(s.negated(), low);
        }
        if low == Literal::FALSE {
            return self.and(s, high);
        }
        if low == Literal::TRUE {
            return self.or(s.negated(), high);
        }
        self.chosen(s, high, low)
    }

    /// The same, if `high` and `low` differ and neither is constant.
    #[tactic(auto, unfolding(crate::specs::Gates::chosen_of))]
    fn chosen(&mut self, s: Literal, high: Literal, low: Literal) -> Result<Literal, EncodeFault>
        requires { All (IsHeld self.old) (s ∷ high ∷ low ∷ []) }
        ensures { MakesGates self.old self.new result (chosen_of self.old s high low)
            (λ v. cond (bit v s) (bit v high) (bit v low)) }
    {
        let where_true = self.and(s, high)?;
        let where_false = self.and(s.negated(), low)?;
        self.or(where_true, where_false)
    }

    /// The gate that reads these literals, which is made if it is new.
    fn gate(&mut self, sides: Sides) -> Result<Literal, EncodeFault>
        requires { AreSides (variables_of self.old + 1) sides }
        ensures { MakesGates self.old self.new result (gate_of self.old sides)
            (λ v. bit v sides.first && bit v sides.second) }
    {
        let variables = self.given + self.gates.len() as u32;
        if variables == MOST_VARIABLES && !contains(&self.gates, &sides) {
            return Err(EncodeFault::CircuitTooLarge);
        }
        let place = self.gates.place_of(sides)?;
        Ok(Literal::positive(self.given + 1 + place as u32))
    }
}

fn contains(gates: &KeyList<Sides>, sides: &Sides) -> bool
    ensures { result ≡ list_any (has_sides sides.now) gates.now }
{
    gates.find(*sides).is_some()
}
