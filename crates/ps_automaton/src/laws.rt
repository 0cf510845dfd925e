//! Laws about the definitions of this crate.

ghost use Rattle.std.specs.Prelude.{◌≡◌, ◌≢◌, ◌⊎◌, ℕ, ◌<◌, Bool, List, Some, length};
ghost use Rattle.ps_hoa.specs.Grammar.Conditions.{Condition};
ghost use Rattle.ps_hoa.specs.Files.{FileData};
ghost use Rattle.ps_hoa.specs.Sound.{IsSoundFile};
ghost use Rattle.ps_automaton.specs.Answers.{IsAdmitted, IsRefused};
ghost use Rattle.ps_automaton.specs.Autos.{Auto, IsAutoOf};
ghost use Rattle.ps_automaton.specs.Chains.{Chain, chain_of, greatest_level, holds, is_even, is_met};
ghost use Rattle.ps_automaton.specs.declared.fault.AutomatonFault.{AutomatonFault};
ghost use Rattle.ps_automaton.specs.declared.fault.AutomatonFault.TheVariants.{OutOfMemory};

/// In a part of a run with at least one edge, the greatest priority that a chain gives is even exactly if the
/// acceptance condition is true for the sets that the part meets.
pub fn greatest_level_decides()
    ensures { (condition : Condition) (chain : Chain) (edges : List (ℕ → Bool)) → chain_of condition ≡ Some chain →
        0 < length edges → is_even (greatest_level chain edges) ≡ holds (is_met edges) condition }
{}

/// A parsed file that satisfies `IsAdmitted` has a deterministic automaton, with a step for each state and letter.
pub fn automaton_is_there()
    ensures { (file : FileData) → IsSoundFile file → IsAdmitted file →
        (chain : Chain) × (auto : Auto) × (chain_of file.condition ≡ Some chain) × IsAutoOf file chain auto }
{}

/// An HOA file is either admitted, or refused for exactly one fault; besides, a call may always run out of memory.
pub fn refusal_is_one()
    ensures some { (file : FileData) → IsAdmitted file ⊎ ((fault : AutomatonFault) × (fault ≢ OutOfMemory) ×
        IsRefused file fault) }
    ensures apart { (file : FileData) (fault : AutomatonFault) → fault ≢ OutOfMemory → IsAdmitted file →
        ¬ IsRefused file fault }
    ensures one { (file : FileData) (fault other : AutomatonFault) → fault ≢ OutOfMemory → other ≢ OutOfMemory →
        IsRefused file fault → IsRefused file other → fault ≡ other }
{}
