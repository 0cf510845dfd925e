//! A synthesis problem: an HOA text's game, and what a certificate of it gives.

ghost use Rattle.std.specs.Prelude.{◌≡◌, ℕ, true, List, IfOk, IfErr};
ghost use Rattle.std.specs.Result.{IsErrAnd};
ghost use Rattle.ps_hoa.specs.Files.{FileData};
ghost use Rattle.ps_solver.specs.Solvers.{Answered, IsKept};
ghost use Rattle.ps_solver.specs.Solving.{IsCertified};
ghost use Rattle.ps_machine.specs.declared.key.Order.{Order};
ghost use Rattle.ps_synthesis.specs.Problems.{ReturnsOnly, IsProblem, IsProblemOf, IsReportFault};
ghost use Rattle.ps_synthesis.specs.Reports.{IsReport, IsWinnersSynthesis};
ghost use Rattle.ps_synthesis.specs.Promises.{IsAcceptedText};
ghost use Rattle.ps_synthesis.specs.Stages.{IsAutomatonOf, IsCircuitFault, IsTextFault};
ghost use Rattle.ps_synthesis.specs.SynthFaults.{IsReportOrFault, IsSureFault, IsSynthFault};
ghost use Rattle.ps_synthesis.specs.declared.fault.SynthFault.TheVariants.{NotCertified, OutOfMemory};

use crate::automata::read_automaton;
use crate::certifying::{certified, is_certified};
use crate::circuits::circuit_of_certificate;
use crate::fault::SynthFault;
use crate::report::{Report, report_of};
use ps_aiger::Circuit;
use ps_automaton::Automaton;
use ps_certificate::{Certificate, no_strategy_wins_outside, valid_regions_are_held};
use ps_game::NamedGame;
use ps_machine::{AutomatonGame, Order, Solver};
use std::alloc::Global;
use std::marker::Model;

/// Who wins each vertex of a problem's game, by which moves, and the winner's circuit.
#[derive(Drop)]
pub struct Synthesis {
    pub certificate: Certificate,
    /// The circuit of the player who wins vertex 0: a controller or an environment.
    pub circuit: Circuit,
}

/// The automaton of a text, the player who moves first, and their game, which a valid certificate solves.
#[derive(Drop)]
pub struct Problem {
    order: Order,
    automaton: Automaton,
    game: AutomatonGame,
}

impl Model for Problem {
    ghost use Rattle.ps_machine.specs.Dividing.{HasClasses};
    ghost use Rattle.ps_synthesis.specs.Problems.{IsProblem, ProblemData};

    ghost Value = { ProblemData };

    ghost view = { λ p. record {
      order = p.order;
      automaton = p.automaton;
      keys = p.game.keys.items;
      game = p.game.game;
    } };

    ghost invariant = { λ p.
        IsProblem (record { order = p.order; automaton = p.automaton; keys = p.game.keys.items; game = p.game.game })
        × HasClasses p.order p.automaton p.game };
}

impl Problem {
    /// The problem of an HOA text. Fails with the text's first error, with the reason why its file has no automaton, or
    /// if out of memory.
    pub fn read(alloc: Global, text: &[u8], order: Order) -> Result<Problem, SynthFault>
        ensures problem { IfOk result (IsProblemOf order text.now) }
        ensures refused { IfErr result (IsTextFault text.now) }
        ensures accepted { (file : FileData) → IsAcceptedText text.now file →
            IfErr result (λ fault. fault ≡ OutOfMemory) }
    {
        let automaton = read_automaton(alloc, text)?;
        Problem::of_automaton(alloc, automaton, order)
    }

    /// The problem of an automaton. Fails if out of memory.
    pub(crate) fn of_automaton(
        alloc: Global,
        automaton: Automaton,
        order: Order,
    ) -> Result<Problem, SynthFault>
        ensures problem { (text : List ℕ) → IsAutomatonOf text automaton → IfOk result (IsProblemOf order text) }
        ensures memory { IfErr result (λ fault. fault ≡ OutOfMemory) }
    {
        let game = AutomatonGame::build(alloc, &automaton, order)?;
        Ok(Problem {
            order,
            automaton,
            game,
        })
    }

    /// The game to solve.
    pub fn game(&self) -> &NamedGame
        ensures game { result.now ≡ self.now.game }
        ensures problem { IsProblem self.now }
    {
        &self.game.game
    }

    /// The parts fit: the game is the automaton's, and has a start vertex. The prover learns it here.
    pub fn parts_fit(&self)
        ensures { IsProblem self.now }
    {
        self.game();
    }

    /// Frees the problem; that this is right is proved here once, and not in each caller.
    pub fn close(self) {
        drop(self);
    }

    /// The report by a certificate. Fails with `NotCertified` if this does not fit the game or is not valid, with
    /// `CircuitTooLarge` if the circuit needs too many variables, or if out of memory.
    pub fn report(
        &self,
        alloc: Global,
        certificate: &Certificate,
        compact: bool,
    ) -> Result<Report, SynthFault>
        ensures report { (order : Order) (text : List ℕ) → IsProblemOf order text self.now →
            IfOk result (IsReport (ReturnsOnly self.now.game certificate.now) order compact text) }
        ensures refused { IfErr result (IsReportFault self.now certificate.now) }
        ensures not_certified { ¬ IsCertified self.now.game certificate.now →
            IsErrAnd result (λ fault. fault ≡ NotCertified) }
        ensures outcome { IsCertified self.now.game certificate.now → (order : Order) (text : List ℕ) →
            IsProblemOf order text self.now → IsReportOrFault (ReturnsOnly self.now.game certificate.now) order
            compact text result }
    {
        if !is_certified(self.game(), certificate) {
            return Err(SynthFault::NotCertified);
        }
        self.report_of_certified(alloc, certificate, compact)
    }

    /// The report by a valid certificate, which is not checked again. Fails with `CircuitTooLarge` likewise, or if out
    /// of memory.
    pub fn report_of_certified(
        &self,
        alloc: Global,
        certificate: &Certificate,
        compact: bool,
    ) -> Result<Report, SynthFault>
        requires { IsCertified self.now.game certificate.now }
        ensures outcome { (order : Order) (text : List ℕ) → IsProblemOf order text self.now →
            IsReportOrFault (ReturnsOnly self.now.game certificate.now) order compact text result }
        ensures cause { IfErr result (IsCircuitFault self.now.order self.now.automaton self.now.game.game
            certificate.now) }
    {
        let circuit = self.circuit(alloc, certificate)?;
        Ok(report_of(alloc, self.game(), certificate, &circuit, compact)?)
    }

    /// The winner's circuit by a valid certificate, which is not checked again. Fails as `report_of_certified`.
    pub fn circuit(&self, alloc: Global, certificate: &Certificate) -> Result<Circuit, SynthFault>
        requires { IsCertified self.now.game certificate.now }
        ensures circuit { (order : Order) (text : List ℕ) → IsProblemOf order text self.now → IfOk result (λ circuit.
            IsWinnersSynthesis (ReturnsOnly self.now.game certificate.now) order text
            (record { game = self.now.game; certificate = certificate.now; circuit = circuit })) }
        ensures refused { (order : Order) (text : List ℕ) → IsProblemOf order text self.now →
            IfErr result (IsSynthFault (ReturnsOnly self.now.game certificate.now) order text) }
        ensures cause { IfErr result (IsCircuitFault self.now.order self.now.automaton self.now.game.game
            certificate.now) }
    {
        valid_regions_are_held();
        no_strategy_wins_outside();
        self.game.game.parts_fit();
        circuit_of_certificate(alloc, &self.automaton, self.order, &self.game, certificate)
    }

    /// The certificate that a solver returns, checked, and the winner's circuit. Fails with the solver's fault, with
    /// `NotCertified`, with `CircuitTooLarge`, or if out of memory.
    pub fn solve<S: Solver>(&self, alloc: Global, solver: &mut S) -> Result<Synthesis, SynthFault>
        ensures synthesis { (order : Order) (text : List ℕ) → IsProblemOf order text self.now → IfOk result (λ made.
            IsWinnersSynthesis (Answered (S.known solver.old) (S.known solver.new)) order text
            (record { game = self.now.game; certificate = made.certificate; circuit = made.circuit })) }
        ensures certified { IfOk result (λ made. IsCertified self.now.game made.certificate) }
        ensures refused { (order : Order) (text : List ℕ) → IsProblemOf order text self.now →
            IfErr result (IsSynthFault (Answered (S.known solver.old) (S.known solver.new)) order text) }
        ensures sure { (S.known solver.old).is_sure ≡ true → IfErr result IsSureFault }
        ensures kept { IsKept (S.known solver.old) (S.known solver.new) }
    {
        let certificate = certified(alloc, self.game(), solver)?;
        let circuit = self.circuit(alloc, &certificate)?;
        Ok(Synthesis {
            certificate,
            circuit,
        })
    }
}
