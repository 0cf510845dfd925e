//! Laws about circuits that are judged by formulas.

ghost use Rattle.std.specs.Prelude.{◌≡◌, ◌↔◌, ℕ, List, Some, slice_get};
ghost use Rattle.ps_fairness.specs.Marks.{IsFairCycle, Leads};
ghost use Rattle.ps_fairness.specs.declared.edge.Edge.{Edge};
ghost use Rattle.ps_label.specs.Words.{lasso_word};
ghost use Rattle.ps_formula.specs.Formulas.{Formula};
ghost use Rattle.ps_formula.specs.Satisfaction.{Satisfies};
ghost use Rattle.ps_tableau.specs.Boards.{IsTableauOf};
ghost use Rattle.ps_tableau.specs.Runs.{IsTableau, Tableau};
ghost use Rattle.ps_tableau.specs.declared.board.Board.{Board};
ghost use Rattle.ps_tableau.specs.declared.edge.Edge as tableau;
ghost use Rattle.ps_circuit.specs.Circuits.{CircuitData, IsCircuit};
ghost use Rattle.ps_machine.specs.declared.key.Order.{Order};
ghost use Rattle.ps_simulate.specs.Lassos.{IsWordOf};
ghost use Rattle.ps_simulate.specs.Stimuli.{StimulusData};
ghost use Rattle.ps_simulate.specs.Symbols.{AreDistinct, HasSymbols};
ghost use Rattle.ps_simulate.specs.Words.{TraceWordData};
ghost use Rattle.ps_simulate.specs.declared.role.Role.{Role};
ghost use Rattle.ps_simulate.specs.declared.role.Role.TheVariants.{Environment};
ghost use Rattle.ps_traces.specs.Shapes.{IsInTimeWhereReached};
ghost use Rattle.ps_traces.specs.Traces.{IsLassoWord};
ghost use Rattle.ps_tableau_product.specs.BoardStates.{AreStatesOf, tableau_of_states};
ghost use Rattle.ps_tableau_product.specs.ProductGraphs.{IsProductGraph, ProductGraph, edges_in};
ghost use Rattle.ps_tableau_product.specs.Products.{ModelEdge, HasFairLasso, IsFairLasso, IsTableauFor, edge_letters};
ghost use Rattle.ps_tableau_product.specs.Products.{opposed};
ghost use Rattle.ps_tableau_product.specs.Products.{start_vertex, stimulus_of};
ghost use Rattle.ps_models.specs.Judgements.{IsLosingFor, IsSatisfied, IsWinningFor, NamedFormula};

use ps_simulate::circuit_has_one_values;

/// A circuit either wins or loses, but not both. If a circuit wins, no stimulus shows that it loses. If no stimulus
/// shows that a circuit loses, the circuit wins, provided that its inputs and outputs are those of its role. If the
/// circuit moves first, its outputs must not depend on its inputs at any latch values that a trace reaches.
pub fn judgement_is_one()
    ensures wins { (order : Order) (role : Role) (f : NamedFormula) (c : CircuitData) → AreDistinct f.names →
        IsCircuit c → HasSymbols role f.names f.controllable c → IsInTimeWhereReached order role c →
        ((s : StimulusData) → ¬ IsLosingFor order role f c s) → IsWinningFor order role f c }
    ensures apart { (order : Order) (role : Role) (f : NamedFormula) (c : CircuitData) (s : StimulusData) →
        IsWinningFor order role f c → ¬ IsLosingFor order role f c s }
{
    circuit_has_one_values();
}

/// On a stimulus on which a circuit loses, the word to the first recurrence of the latches violates the formula if the
/// circuit is a controller, and satisfies it if the circuit is an environment.
pub fn losing_word_is_wrong()
    ensures { (order : Order) (role : Role) (f : NamedFormula) (c : CircuitData) (s : StimulusData)
        (word : TraceWordData) → IsLosingFor order role f c s → IsWordOf f.names c s.stem s.lap word →
        IsSatisfied f word.stem word.lap ↔ (role ≡ Environment) }
{}

/// States of a board with their edges are a tableau, in which a cover's next obligations need not be those of a state.
/// It is the tableau of the board's formula, from the first state on, if the first state is the board's initial set.
pub fn states_are_a_tableau()
    ensures { (b : Board) (sets : List ℕ) (edges : List (List tableau.Edge)) (f : Formula) → AreStatesOf b sets edges →
        IsTableauOf b f → slice_get sets 0 ≡ Some b.initial →
        IsTableauFor (tableau_of_states b sets edges) 0 f }
{}

/// The letters along a fair lasso of the product are the word of a lasso trace of the circuit, and this word satisfies
/// the formula of the tableau.
pub fn fair_lasso_satisfies()
    ensures word { (names : List (List ℕ)) (c : CircuitData) (t : Tableau) (state : ℕ) (stem lap : List ModelEdge) →
        IsFairLasso names c t (start_vertex c state) stem lap →
        IsLassoWord names c (edge_letters stem) (edge_letters lap) }
    ensures satisfied { (names : List (List ℕ)) (c : CircuitData) (t : Tableau) (state : ℕ) (f : Formula)
        (stem lap : List ModelEdge) → IsTableauFor t state f → IsFairLasso names c t (start_vertex c state) stem lap →
        Satisfies f (lasso_word (edge_letters stem) (edge_letters lap)) 0 }
{}

/// If the word of a lasso trace of the circuit satisfies the formula of the tableau, the product has a fair lasso,
/// provided that each cover leads to a state.
pub fn satisfied_has_fair_lasso()
    ensures { (names : List (List ℕ)) (c : CircuitData) (t : Tableau) (state : ℕ) (f : Formula) (stem lap : List ℕ) →
        IsTableau t → IsTableauFor t state f → IsLassoWord names c stem lap → Satisfies f (lasso_word stem lap) 0 →
        HasFairLasso names c t (start_vertex c state) }
{}

/// A circuit loses exactly if its product with the tableau has a fair lasso, and wins if the product has none. The
/// tableau is that of the formula which a counterexample satisfies, and each of its covers leads to a state. What the
/// circuit reads along a fair lasso is a stimulus on which it loses.
pub fn fair_lasso_decides()
    ensures loses { (order : Order) (role : Role) (f : NamedFormula) (c : CircuitData) (t : Tableau) (state : ℕ)
        (stem lap : List ModelEdge) → IsCircuit c → HasSymbols role f.names f.controllable c →
        IsInTimeWhereReached order role c → IsTableauFor t state (opposed role f.formula) →
        IsFairLasso f.names c t (start_vertex c state) stem lap →
        IsLosingFor order role f c (stimulus_of stem lap) }
    ensures found { (order : Order) (role : Role) (f : NamedFormula) (c : CircuitData) (s : StimulusData) (t : Tableau)
        (state : ℕ) → IsLosingFor order role f c s → IsTableau t → IsTableauFor t state (opposed role f.formula) →
        HasFairLasso f.names c t (start_vertex c state) }
    ensures wins { (order : Order) (role : Role) (f : NamedFormula) (c : CircuitData) (t : Tableau) (state : ℕ) →
        AreDistinct f.names → IsCircuit c → HasSymbols role f.names f.controllable c →
        IsInTimeWhereReached order role c → IsTableau t → IsTableauFor t state (opposed role f.formula) →
        ¬ HasFairLasso f.names c t (start_vertex c state) → IsWinningFor order role f c }
{
    circuit_has_one_values();
}

/// In a graph that is the product with the tableau, a walk from the start to a fair cycle is a stimulus on which the
/// circuit loses. The circuit wins if the graph has no fair cycle.
pub fn fair_cycle_decides()
    ensures loses { (order : Order) (role : Role) (f : NamedFormula) (c : CircuitData) (t : Tableau) (state : ℕ)
        (p : ProductGraph) (stem lap : List Edge) → IsCircuit c → HasSymbols role f.names f.controllable c →
        IsInTimeWhereReached order role c → IsTableauFor t state (opposed role f.formula) →
        IsProductGraph f.names c t (start_vertex c state) p → (cycle : IsFairCycle p.graph p.marks lap) →
        Leads p.graph stem 0 cycle.start →
        IsLosingFor order role f c (stimulus_of (edges_in p stem) (edges_in p lap)) }
    ensures wins { (order : Order) (role : Role) (f : NamedFormula) (c : CircuitData) (t : Tableau) (state : ℕ)
        (p : ProductGraph) → AreDistinct f.names → IsCircuit c → HasSymbols role f.names f.controllable c →
        IsInTimeWhereReached order role c → IsTableauFor t state (opposed role f.formula) →
        IsProductGraph f.names c t (start_vertex c state) p →
        ((walk : List Edge) → ¬ IsFairCycle p.graph p.marks walk) → IsWinningFor order role f c }
{
    circuit_has_one_values();
    fair_lasso_decides();
}
