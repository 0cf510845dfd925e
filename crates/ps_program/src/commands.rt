//! The commands: how each is called, and what it reads. Each also fails if memory runs out.

ghost use Rattle.std.specs.Prelude.{◌≡◌, map};
ghost use Rattle.clap.specs.Matches.{found_of};
ghost use Rattle.clap.specs.Words.{rows_of};
ghost use Rattle.ps_program.specs.CommandLine.{commands, is_given};
ghost use Rattle.ps_program.specs.Inner.Usages.{usage_of, with_flags};
ghost use Rattle.ps_program.specs.Outcomes.{Gives};
ghost use Rattle.ps_program.specs.Program.{AnswersLine};
ghost use Rattle.ps_program.specs.Replies.{reply_of};
ghost use Rattle.ps_program.specs.Finders.{finders_of};

pub mod agree;
pub mod cert;
pub mod check;
pub mod game;
pub mod judge;
pub mod lasso;
pub mod lasso_tlsf;
pub mod shrink;
pub mod shrink_tlsf;
pub mod sim;
pub mod solve;
pub mod synth;
pub mod synth_tlsf;
pub mod translate;
pub mod verify;
pub mod verify_tlsf;

use crate::answer::{Answer, Refusal};
use crate::command_line::{
    is_given, lasso_given, order_given, shrink_given, synth_given, verify_given,
};
use clap::ArgMatches;
use ps_machine::{Order, Solver};
use ps_simulate::Role;
use ps_specification::{Proposer, Translator};
use std::alloc::Global;

/// What a first line asks for.
#[derive(Clone, Copy)]
pub enum Line {
    /// Anything but a command's name with flags of its own, each once at most, of which none exclude each other.
    Refused,
    /// The help text.
    Help,
    /// Whether a certificate is closed: each winner's move is an edge that stays in the winner's region, and so does
    /// each edge of a vertex that the loser owns.
    Closed,
    /// Whether a certificate of a game is valid.
    Check,
    /// The certificate that a solution gives.
    Judge {
        /// Whether its text is compact.
        compact: bool,
    },
    /// The trace of a circuit at given letters.
    Sim,
    /// Whether an automaton accepts the word of a circuit in this role on a stem and a repeated lap.
    Lasso(Role),
    /// The same by a specification.
    LassoTlsf(Role),
    /// Whether an automaton accepts each lasso trace of a controller, or none of an environment.
    Verify {
        order: Order,
        role: Role,
    },
    /// The same by a specification.
    VerifyTlsf(Role),
    /// A circuit that wins as a given one does, and is not larger.
    Shrink {
        order: Order,
        role: Role,
    },
    /// The same by a specification.
    ShrinkTlsf(Role),
    /// Whether an automaton accepts just the words that satisfy a specification.
    Agree,
    /// An automaton that does.
    Translate,
    /// A certificate of a game.
    Solve {
        compact: bool,
    },
    /// The game of an automaton, in this order of moves.
    Game(Order),
    /// A certificate of this game.
    Cert {
        order: Order,
        compact: bool,
    },
    /// A circuit for an automaton.
    Synth(SynthLine),
    /// A circuit for a specification.
    SynthTlsf,
}

/// What `synth` makes and prints.
#[derive(Clone, Copy)]
pub struct SynthLine {
    /// Whether the game and its certificate are printed.
    pub full: bool,
    /// Whether a certificate follows the automaton, and takes the solver's place.
    pub cert: bool,
    /// Who moves first.
    pub order: Order,
    /// Whether the certificate's text is compact.
    pub compact: bool,
}

/// A kind of input text.
#[derive(Clone, Copy)]
pub enum TextKind {
    /// As an HOA text.
    Automaton,
    /// In temporal logic, as a TLSF text.
    Specification,
    /// A parity game.
    Game,
    /// Of a game.
    Certificate,
    /// Of a game.
    Solution,
    /// As an AIGER text.
    Circuit,
    /// Letters for a circuit's inputs.
    Stimulus,
}

/// How a command is used.
#[derive(Clone, Copy)]
pub struct Usage<'a> {
    /// Its name.
    pub name: &'a str,
    /// Its flags, each without `--`.
    pub flags: &'a [&'a str],
    /// The kinds of its texts, in their order.
    pub texts: &'a [TextKind],
    /// Flags with which it reads one more text.
    pub added: &'a [(&'a str, TextKind)],
    /// Flags with which its first text is of this kind.
    pub replaced: &'a [(&'a str, TextKind)],
    /// What it means without flags.
    pub line: Line,
    /// What `help` says after the kinds of its texts.
    pub says: &'a str,
}

/// The circuit is an environment.
pub const ENV_FLAG: &str = "env";

/// A specification stands in the place of the automaton.
pub const TLSF_FLAG: &str = "tlsf";

/// Outputs move before inputs.
pub const MOORE_FLAG: &str = "moore";

/// The certificate is a compact text.
pub const COMPACT_FLAG: &str = "compact";

/// `synth` prints the game and its certificate, too.
pub const FULL_FLAG: &str = "full";

/// `synth` reads a certificate after the automaton.
pub const CERT_FLAG: &str = "cert";

/// What `help` says of `closed`.
pub const ON_CLOSED: &str = "\
: does each path that follows its moves stay with its
           winner? `closed`, or the first flaw";

/// Of `check`.
pub const ON_CHECK: &str = "\
: is the certificate right? `valid`: it is closed, and
           its counts show that the winner wins each loop; or the first flaw";

/// Of `judge`.
pub const ON_JUDGE: &str = "\
: is a solver's solution right? A certificate with its
           winners and moves; or a wrong move or edge, or a cycle that its player
           loses; --compact: only the counts above 0, each as priority:count";

/// Of `sim`.
pub const ON_SIM: &str = "\
: what does the circuit do? A line for each letter:
           the latches before it, the inputs, the outputs";

/// Of `lasso`.
pub const ON_LASSO: &str = "\
: does the automaton accept
           what the circuit does? A line - divides the stimulus into a stem and a
           lap, which is repeated for ever; the circuit is a controller, or with
           --env an environment; --tlsf: a specification in the automaton's place";

/// Of `verify`.
pub const ON_VERIFY: &str = "\
: does the automaton accept all that the circuit
           can do, or with --env nothing of it? `wins`; or `loses`, and a stimulus
           that shows it; --moore: outputs move before inputs; --tlsf: a
           specification in the automaton's place, which names the order of moves";

/// Of `shrink`.
pub const ON_SHRINK: &str = "\
: is there a smaller circuit that wins too? One
           that is not larger; or `loses`, and a stimulus;
           --env, --moore, --tlsf";

/// Of `agree`.
pub const ON_AGREE: &str = "\
: does the automaton accept just the words
           that satisfy the specification? `agrees`; or `accepts` or `rejects`,
           and a word that the automaton accepts or rejects wrongly";

/// Of `translate`.
pub const ON_TRANSLATE: &str = "\
: which automaton accepts just the words that satisfy
           it? Its HOA text";

/// Of `solve`.
pub const ON_SOLVE: &str = "\
: who wins each vertex, and by which moves? A certificate; --compact";

/// Of `game`.
pub const ON_GAME: &str = "\
: which parity game do inputs and outputs play? Inputs move
           first, or with --moore last";

/// Of `cert`.
pub const ON_CERT: &str = ": who wins that game? A certificate of it; --moore, --compact";

/// Of `synth`.
pub const ON_SYNTH: &str = "\
: is there a controller whose traces it all accepts?
           REALIZABLE and a circuit of one, or UNREALIZABLE and the circuit of an
           environment against which each trace is rejected; --moore;
           --full: then a line %%, the game, a line %% and its certificate, with
           --compact as a compact text; the circuit may then be another one;
           --cert: by a certificate of the game, which is the second text;
           --tlsf, without another flag: a specification in the automaton's place";

/// Of `help`.
pub const ON_HELP: &str = "this text";

const COMMANDS: &[Usage<'static>] = &[
    Usage {
        name: "closed",
        flags: &[],
        texts: &[TextKind::Game, TextKind::Certificate],
        added: &[],
        replaced: &[],
        line: Line::Closed,
        says: ON_CLOSED,
    },
    Usage {
        name: "check",
        flags: &[],
        texts: &[TextKind::Game, TextKind::Certificate],
        added: &[],
        replaced: &[],
        line: Line::Check,
        says: ON_CHECK,
    },
    Usage {
        name: "judge",
        flags: &[COMPACT_FLAG],
        texts: &[TextKind::Game, TextKind::Solution],
        added: &[],
        replaced: &[],
        line: Line::Judge { compact: false },
        says: ON_JUDGE,
    },
    Usage {
        name: "sim",
        flags: &[],
        texts: &[TextKind::Circuit, TextKind::Stimulus],
        added: &[],
        replaced: &[],
        line: Line::Sim,
        says: ON_SIM,
    },
    Usage {
        name: "lasso",
        flags: &[ENV_FLAG, TLSF_FLAG],
        texts: &[TextKind::Automaton, TextKind::Circuit, TextKind::Stimulus],
        added: &[],
        replaced: &[(TLSF_FLAG, TextKind::Specification)],
        line: Line::Lasso(Role::Controller),
        says: ON_LASSO,
    },
    Usage {
        name: "verify",
        flags: &[ENV_FLAG, MOORE_FLAG, TLSF_FLAG],
        texts: &[TextKind::Automaton, TextKind::Circuit],
        added: &[],
        replaced: &[(TLSF_FLAG, TextKind::Specification)],
        line: Line::Verify {
            order: Order::Mealy,
            role: Role::Controller,
        },
        says: ON_VERIFY,
    },
    Usage {
        name: "shrink",
        flags: &[ENV_FLAG, MOORE_FLAG, TLSF_FLAG],
        texts: &[TextKind::Automaton, TextKind::Circuit],
        added: &[],
        replaced: &[(TLSF_FLAG, TextKind::Specification)],
        line: Line::Shrink {
            order: Order::Mealy,
            role: Role::Controller,
        },
        says: ON_SHRINK,
    },
    Usage {
        name: "agree",
        flags: &[],
        texts: &[TextKind::Specification, TextKind::Automaton],
        added: &[],
        replaced: &[],
        line: Line::Agree,
        says: ON_AGREE,
    },
    Usage {
        name: "translate",
        flags: &[],
        texts: &[TextKind::Specification],
        added: &[],
        replaced: &[],
        line: Line::Translate,
        says: ON_TRANSLATE,
    },
    Usage {
        name: "solve",
        flags: &[COMPACT_FLAG],
        texts: &[TextKind::Game],
        added: &[],
        replaced: &[],
        line: Line::Solve { compact: false },
        says: ON_SOLVE,
    },
    Usage {
        name: "game",
        flags: &[MOORE_FLAG],
        texts: &[TextKind::Automaton],
        added: &[],
        replaced: &[],
        line: Line::Game(Order::Mealy),
        says: ON_GAME,
    },
    Usage {
        name: "cert",
        flags: &[MOORE_FLAG, COMPACT_FLAG],
        texts: &[TextKind::Automaton],
        added: &[],
        replaced: &[],
        line: Line::Cert {
            order: Order::Mealy,
            compact: false,
        },
        says: ON_CERT,
    },
    Usage {
        name: "synth",
        flags: &[FULL_FLAG, CERT_FLAG, MOORE_FLAG, COMPACT_FLAG, TLSF_FLAG],
        texts: &[TextKind::Automaton],
        added: &[(CERT_FLAG, TextKind::Certificate)],
        replaced: &[(TLSF_FLAG, TextKind::Specification)],
        line: Line::Synth(SynthLine {
            full: false,
            cert: false,
            order: Order::Mealy,
            compact: false,
        }),
        says: ON_SYNTH,
    },
    Usage {
        name: "help",
        flags: &[],
        texts: &[],
        added: &[],
        replaced: &[],
        line: Line::Help,
        says: ON_HELP,
    },
];

/// All commands, in the order of the help text.
pub(crate) fn usages() -> &'static [Usage<'static>]
    ensures { map usage_of result.now ≡ commands }
{
    COMMANDS
}

impl Line {
    /// What a command means with these flags.
    pub(crate) fn with(self, flags: &ArgMatches) -> Line
        ensures { result ≡ with_flags self (λ name. is_given name (rows_of (found_of flags.now))) }
    {
        match self {
            Line::Judge { .. } => Line::Judge {
                compact: is_given(flags, COMPACT_FLAG),
            },
            Line::Lasso(_) => lasso_given(flags),
            Line::Verify { .. } => verify_given(flags),
            Line::Shrink { .. } => shrink_given(flags),
            Line::Solve { .. } => Line::Solve {
                compact: is_given(flags, COMPACT_FLAG),
            },
            Line::Game(_) => Line::Game(order_given(flags)),
            Line::Cert { .. } => Line::Cert {
                order: order_given(flags),
                compact: is_given(flags, COMPACT_FLAG),
            },
            Line::Synth(_) => synth_given(flags),
            line => line,
        }
    }
}

/// The answer to a command line with the texts that follow it, or the command's fault.
pub(crate) fn answer_line<S: Solver, T: Solver, P: Proposer, U: Translator>(
    alloc: Global,
    line: Line,
    texts: &[u8],
    built_in: &mut S,
    replay: &mut T,
    proposer: &P,
    translator: &U,
) -> Result<Answer, Refusal>
    ensures answer { Gives reply_of (AnswersLine (finders_of (S.known built_in.old) (T.known replay.old)
        (P.known proposer.now) (U.may_give translator.now)) line texts.now) result }
    ensures built_in_kept { (S.known built_in.new).is_sure ≡ (S.known built_in.old).is_sure }
    ensures replay_kept { (T.known replay.new).is_sure ≡ (T.known replay.old).is_sure }
{
    match line {
        Line::Refused => Ok(Answer::usage(alloc)?),
        Line::Help => Ok(Answer::help(alloc)?),
        Line::Closed => check::closed(alloc, texts),
        Line::Check => check::check(alloc, texts),
        Line::Judge { compact } => judge::judge(alloc, compact, texts),
        Line::Sim => sim::sim(alloc, texts),
        Line::Lasso(role) => lasso::lasso(alloc, role, texts),
        Line::LassoTlsf(role) => lasso_tlsf::lasso_tlsf(alloc, role, texts),
        Line::Verify { order, role } => verify::verify(alloc, order, role, texts),
        Line::VerifyTlsf(role) => verify_tlsf::verify_tlsf(alloc, role, texts),
        Line::Shrink { order, role } => shrink::shrink(alloc, order, role, texts),
        Line::ShrinkTlsf(role) => shrink_tlsf::shrink_tlsf(alloc, role, texts),
        Line::Agree => agree::agree(alloc, texts),
        Line::Translate => translate::translate(alloc, texts, translator),
        Line::Solve { compact } => solve::solve(alloc, texts, built_in, compact),
        Line::Game(order) => game::game(alloc, order, texts),
        Line::Cert { order, compact } => cert::cert(alloc, order, texts, built_in, compact),
        Line::Synth(asked) => synth::synth(alloc, asked, texts, built_in, replay),
        Line::SynthTlsf => synth_tlsf::synth_tlsf(alloc, texts, proposer),
    }
}
