// One allowance of visits for several benches: V visits are dealt to up to 8 benches on one sheet, each with a state and a table of its own; a bench that
// is granted its whole need queries. It rests on the judge's promises alone: of a query, of a table's size and of the largest.
#![tactic(auto)]

mod benches;
mod dealing;
pub mod granting;

ghost use Rattle.std.specs.Prelude.{◌≡◌, false, Ok, Err};

use judge::{Judged, QueryError};
use sheet::{Numbered, Refusal};

// The most benches of a call.
pub const MOST_BENCHES: usize = 8;

// Why a call is turned down: the number of benches is 0 or too large, or a bench's own refusal, of which a wrong count is one.
#[derive(Clone, Copy, Debug, PartialEq, Eq)]
pub enum GrantError {
    BenchCountWrong,
    WrongCount,
    Refused(Refusal),
}

impl From<Refusal> for GrantError {
    ghost use Rattle.allowance.specs.declared.GrantError.TheVariants.{Refused};

    ghost from_gives = { λ x e. e ≡ Refused x };

    fn from(x: Refusal) -> GrantError {
        GrantError::Refused(x)
    }
}

impl From<QueryError> for GrantError {
    ghost use Rattle.allowance.specs.Granting.{refusal_of};

    ghost from_gives = { λ x e. Err e ≡ refusal_of (Err x) };

    fn from(x: QueryError) -> GrantError {
        match x {
            QueryError::WrongCount => GrantError::WrongCount,
            QueryError::Refused(x) => GrantError::Refused(x),
        }
    }
}

impl Numbered for GrantError {
    ghost use Rattle.allowance.specs.Granting.{reported_answer};

    ghost number = { λ e. (reported_answer (Err e)).number };

    ghost place = { λ e. (reported_answer (Err e)).place };

    fn number(&self) -> u8 {
        match self {
            GrantError::BenchCountWrong => 44,
            GrantError::WrongCount => 35,
            GrantError::Refused(x) => x.number(),
        }
    }

    fn place(&self) -> u16 {
        match self {
            GrantError::BenchCountWrong => 0,
            GrantError::WrongCount => 0,
            GrantError::Refused(x) => x.place(),
        }
    }
}

// What the call gives of a bench: its need, its grant, whether it is short, and the verdict and the visits of its query, false and 0 where it is short.
// Where there is no bench every result is 0.
#[derive(Clone, Copy, Default)]
pub struct Bench {
    pub need: usize,
    pub grant: usize,
    pub short: bool,
    pub verdict: bool,
    pub visits: usize,
}

impl Bench {
    ghost use Rattle.judge.specs.Querying.{reported_query};
    ghost use Rattle.allowance.specs.Granting.{short_bench, queried_bench};

    // A bench whose query would give this. Nothing is granted yet.
    pub(crate) fn asked(judged: Judged) -> Bench
        ensures { result ≡ record { need = judged.visits; grant = 0; short = false; verdict = judged.verdict; visits = 0 } }
    {
        Bench {
            need: judged.visits,
            verdict: judged.verdict,
            ..Bench::default()
        }
    }

    // A bench that is not granted its whole need.
    pub(crate) fn short(need: usize, grant: usize) -> Bench
        ensures { result ≡ short_bench need grant }
    {
        Bench {
            need,
            grant,
            short: true,
            ..Bench::default()
        }
    }

    // A bench with a need of 0, whose query changes nothing.
    pub(crate) fn idle(grant: usize, verdict: bool) -> Bench
        ensures { result ≡ queried_bench 0 grant (reported_query (Ok (record { verdict = verdict; visits = 0 }))) }
    {
        Bench {
            grant,
            verdict,
            ..Bench::default()
        }
    }

    // A bench that has queried.
    pub(crate) fn queried(need: usize, grant: usize, answer: Result<Judged, QueryError>) -> Bench
        ensures { result ≡ queried_bench need grant (reported_query answer) }
    {
        Bench {
            need,
            grant,
            short: false,
            verdict: answer.is_ok_and(|judged| judged.verdict),
            visits: answer.map_or(0, |judged| judged.visits),
        }
    }
}

// What a call gives of the benches, all of them 0 and false where it is turned down.
pub trait GrantAnswer {
    ghost use Rattle.std.specs.Prelude.{List};
    ghost use Rattle.allowance.specs.declared.Bench.{Bench};

    ghost given: { Self → List Bench };

    fn benches(&self) -> [Bench; MOST_BENCHES]
        ensures { result ≡ given self.now };
}

impl GrantAnswer for Result<[Bench; MOST_BENCHES], GrantError> {
    ghost use Rattle.allowance.specs.Granting.{benches_in};

    ghost given = { benches_in };

    fn benches(&self) -> [Bench; MOST_BENCHES] {
        match self {
            Ok(benches) => *benches,
            Err(_) => [Bench::default(); MOST_BENCHES],
        }
    }
}
