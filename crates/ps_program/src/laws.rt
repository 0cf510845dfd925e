//! Laws on answers; what one command prints, another reads.

ghost use Rattle.std.specs.Prelude.{ℕ, List, []};
ghost use Rattle.ps_solver.specs.Solving.{own_solver, replay_of};
ghost use Rattle.ps_specification.specs.Proposing.{own_proposer};
ghost use Rattle.ps_specification.specs.Translating.{own_translator};
ghost use Rattle.ps_program.specs.Laws.Answered.{MayCertify, MayReplay};
ghost use Rattle.ps_program.specs.Laws.Answered.{ArePrinted, HasSomeAnswer, HasSomeLine, HasSomeSolved};
ghost use Rattle.ps_program.specs.Laws.Answered.{HasSomeSynthesis};
ghost use Rattle.ps_program.specs.Laws.Determined.{HasOneAnswer, HasOneCertified, NeedsItsTexts};
ghost use Rattle.ps_program.specs.Laws.Exchanged.{ChecksCertificates, ConfirmsLosing, ReadsLosing};
ghost use Rattle.ps_program.specs.Laws.Exchanged.{ReadsLosingSpecified};
ghost use Rattle.ps_program.specs.Laws.Exchanged.{VerifiesCircuits, VerifiesSmaller, VerifiesSmallerSpecified};
ghost use Rattle.ps_program.specs.Laws.Exchanged.{VerifiesWinners};
ghost use Rattle.ps_program.specs.Finders.{Finders, finders_of};

/// What is known of two solvers, a proposer and a translator: any, so a type with an `impl` of this trait needs no
/// values.
pub trait KnownFinders {
    ghost finders: { Finders };
}

/// psyn's own, the second solver not yet fed a text.
pub struct OwnFinders;

impl KnownFinders for OwnFinders {
    ghost finders = { finders_of own_solver (replay_of []) (own_proposer 1) own_translator };
}

/// Whatever is given to the program, an input has at most one answer, but for what commands may choose. `judge` may
/// name any of the lost cycles, which one player loses; `verify` and `shrink` may show any stimulus on which the
/// circuit loses, `agree` any lasso on which automaton and specification differ, `shrink` any circuit that wins and is
/// not larger. Two answers without a fault have the same regions if they are of `solve` or `cert`, and the same status
/// and first line if of `synth`, with one game if without `--tlsf`; those of `translate` are automata that agree with
/// the specification. With `synth --cert` there is one answer, if the second solver only returns the certificate that
/// it was fed.
pub fn one_answer<F: KnownFinders>()
    ensures answer { HasOneAnswer F.finders }
    ensures certified { HasOneCertified F.finders }
{
    ps_pgsolver::one_answer();
    ps_certificate::certificate_text_has_one_answer();
    ps_certificate::first_flaw_is_one();
    ps_certificate::winners_are_one();
    ps_circuit::one_answer();
    ps_hoa::one_answer();
    ps_automaton::refusal_is_one();
    ps_machine::one_game_of_file();
    ps_synthesis::winners_circuit_is_one();
    ps_simulate::verdict_is_one();
    ps_simulate::word_is_one();
    ps_simulate::circuit_has_one_values();
    ps_simulate::stimulus_text_has_one_answer();
    ps_solution::one_answer();
    ps_referee::one_certificate();
    ps_referee::one_verdict();
    ps_verify::judgement_is_one();
    ps_models::laws::judgement_is_one();
    ps_specification::no_specification_has_both();
}

/// A command reads as many texts as the table says. The answer reports a missing one, unless the flags exclude each
/// other.
pub fn missing_text_is_told<F: KnownFinders>()
    ensures { NeedsItsTexts F.finders }
{}

/// Each first line has a meaning, and each input an answer, but for `verify` and `shrink`, where a proof would have to
/// decide as the code does, and `agree`, `translate` and `synth --tlsf`. Without this law, a definition that excludes
/// all that the program can print might pass unnoticed. Lack of memory is no answer here.
///
/// `solve` and `cert` need a first solver that may answer with some valid certificate of each game. `synth` needs it
/// too or, with `--cert`, a second solver that may answer with what parsing any text gives that it is fed, and so is
/// not sure (a sure one returns only valid certificates). What `synth` prints must also be what parsing gives: the
/// circuit and, with `--full`, the certificate and the game, unless its text is longer than the parser accepts.
pub fn some_answer<F: KnownFinders>()
    ensures line { HasSomeLine }
    ensures answer { HasSomeAnswer F.finders }
    ensures solved { HasSomeSolved F.finders }
    ensures synthesis { HasSomeSynthesis F.finders }
{
    ps_pgsolver::some_answer();
    ps_pgsolver::read_game_is_game();
    ps_certificate::certificate_text_has_some_answer();
    ps_certificate::read_certificate_fits();
    ps_certificate::first_flaw_is_there();
    ps_certificate::valid_regions_are_held();
    ps_certificate::no_strategy_wins_outside();
    ps_solution::some_answer();
    ps_referee::solution_is_judged();
    ps_hoa::some_answer();
    ps_hoa::sound_files();
    ps_automaton::refusal_is_one();
    ps_machine::game_is_there();
    ps_machine::game_of_file_is_game();
    ps_circuit::some_answer();
    ps_circuit::read_circuit_is_circuit();
    ps_simulate::stimulus_text_has_some_answer();
    ps_simulate::circuit_has_one_values();
    ps_simulate::symbols_are_decided();
    ps_traces::verdict_is_there();
    ps_tlsf::names_differ();
    ps_traces::word_is_there();
    ps_formula::laws::lasso_truths();
    ps_traces::certified_circuit_of_file_answers();
    ps_synthesis::winners_circuit_is_there();
}

/// psyn's own solvers are as `some_answer` needs them.
pub fn own_solvers_may_answer()
    ensures certify { MayCertify own_solver }
    ensures replay { (text : List ℕ) → MayReplay (replay_of text) }
{
    ps_machine::each_game_has_a_certificate();
}

/// What `synth` prints is as `some_answer` needs it, if the numbers of circuit, game and certificate fit in 64 bits.
pub fn fitting_texts_are_printed<F: KnownFinders>()
    ensures { ArePrinted F.finders.solvers.built_in }
{
    ps_synthesis::written_texts_are_read();
    ps_traces::certified_circuit_of_file_answers();
}

/// `lasso` reads what `verify` prints after `loses`, also with `--tlsf`, as the stimulus on which the circuit loses.
pub fn losing_stimulus_is_read()
    ensures automaton { ReadsLosing }
    ensures specification { ReadsLosingSpecified }
{}

/// On a stimulus that `verify --tlsf` prints, `lasso --tlsf` answers that a controller's trace violates the
/// specification, or with `--env` that an environment's satisfies it, and nothing else.
pub fn losing_stimulus_is_confirmed()
    ensures { ConfirmsLosing }
{
    ps_circuit::one_answer();
    ps_circuit::read_circuit_is_circuit();
    ps_simulate::stimulus_text_has_one_answer();
    ps_simulate::word_is_one();
    ps_tlsf::names_differ();
    ps_traces::word_is_there();
    ps_models::laws::losing_word_is_wrong();
}

/// Whatever the solver, `verify` answers `wins`, and nothing else, for each circuit that `synth` prints, given the same
/// automaton and order of moves and, for an environment, `--env`.
pub fn circuits_are_verified<F: KnownFinders>()
    ensures { VerifiesCircuits F.finders.solvers.built_in }
{
    ps_automaton::refusal_is_one();
    ps_circuit::one_answer();
    ps_hoa::one_answer();
    ps_verify::judgement_is_one();
    ps_verify::witness_wins();
}

/// `verify` answers `wins`, and nothing else, for each circuit that `shrink` prints in place of one that wins, given
/// the same automaton and flags.
pub fn smaller_circuits_are_verified()
    ensures { VerifiesSmaller }
{
    ps_automaton::refusal_is_one();
    ps_circuit::one_answer();
    ps_circuit::read_circuit_is_circuit();
    ps_hoa::one_answer();
    ps_verify::judgement_is_one();
}

/// `verify --tlsf` answers `wins`, and nothing else, for each circuit that `synth --tlsf` prints, given the same
/// specification and, for an environment, `--env`.
pub fn specified_circuits_are_verified()
    ensures { VerifiesWinners }
{
    ps_circuit::one_answer();
    ps_models::laws::judgement_is_one();
}

/// `verify --tlsf` answers `wins`, and nothing else, for each circuit that `shrink --tlsf` prints in place of one that
/// wins, given the same specification and flags.
pub fn smaller_specified_circuits_are_verified()
    ensures { VerifiesSmallerSpecified }
{
    ps_circuit::one_answer();
    ps_circuit::read_circuit_is_circuit();
    ps_models::laws::judgement_is_one();
}

/// `check` answers `valid`, and nothing else, for the text of each valid certificate of a game, if the numbers of both
/// fit in 64 bits. `solve`, `cert`, `judge` and `synth --full` print such texts.
pub fn certificates_are_checked()
    ensures { ChecksCertificates }
{
    ps_pgsolver::one_answer();
    ps_certificate::certificate_text_has_one_answer();
    ps_synthesis::written_texts_are_read();
}
