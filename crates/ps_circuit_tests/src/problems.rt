//! From an automaton's text to the winner's circuit, as a user of the library would write it.

use ps_certificate::Certificate;
use ps_game::{Arena, NamedGame};
use ps_machine::{BuiltIn, Order, SolveFault, Solver};
use ps_synthesis::{Problem, Report, synthesise_by};
use std::alloc::{AllocError, Global};
use std::test::Fail;

/// A grant must be given exactly when there is a request.
const GRANTS: &[u8] =
    b"HOA: v1 Start: 0 AP: 2 \"r\" \"g\" controllable-AP: 1 Acceptance: 0 t --BODY-- State: 0 [0&1 | !0&!1] 0 --END--";

/// Parses a problem, solves its game, and makes a report from the certificate.
fn answer(alloc: Global, text: &[u8]) -> Result<Report, Fail> {
    let problem = Problem::read(alloc, text, Order::Mealy)?;
    let report = answer_to(alloc, &problem);
    problem.close();
    report
}

/// The report by psyn's built-in solver.
fn answer_to(alloc: Global, problem: &Problem) -> Result<Report, Fail> {
    let certificate = BuiltIn::new(alloc).solve(problem.game())?;
    Ok(problem.report(alloc, &certificate, false)?)
}

#[test]
fn a_controller_grants_what_is_requested(rt: HostRuntime) -> Result<(), Fail> {
    let report = answer(rt.alloc(), GRANTS)?;
    let circuit: &[u8] = b"aag 1 1 0 1 0\n2\n2\ni0 r\no0 g\n";
    assert!(rt; report.realizable && report.circuit_text.as_slice() == circuit);
    Ok(())
}

/// Passes games to another solver, and records how many vertices the last one had.
#[derive(Drop)]
struct Noting<S> {
    vertices: usize,
    solver: S,
}

impl<S: Solver> Solver for Noting<S> {
    ghost known = { λ noting. S.known noting.solver };

    fn feed(&mut self, text: &[u8]) -> Result<(), AllocError> {
        self.solver.feed(text)
    }

    fn is_free(&self) -> bool {
        self.solver.is_free()
    }

    fn solve(&mut self, game: &NamedGame) -> Result<Certificate, SolveFault> {
        self.vertices = game.game().count();
        self.solver.solve(game)
    }
}

#[test]
fn a_solver_of_the_tests_is_asked(rt: HostRuntime) -> Result<(), Fail> {
    let mut solver = Noting {
        vertices: 0,
        solver: BuiltIn::new(rt.alloc()),
    };
    let report = synthesise_by(rt.alloc(), GRANTS, Order::Mealy, false, &mut solver)?;
    assert!(rt; report.realizable && solver.vertices == 5);
    Ok(())
}
