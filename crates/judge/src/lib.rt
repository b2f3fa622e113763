// The judge: rows of cells, clearing and query; the count that a table carries; the audit of a filled table.
#![tactic(auto)]

pub mod auditing;
pub mod clearing;
mod consistency;
pub mod counting;
mod deciding;
mod index;
mod marks;
mod packed;
mod preparing;
pub mod querying;
mod scanning;
pub mod table;
pub mod turns;

ghost use Rattle.std.specs.Prelude.{◌≡◌};
ghost use Rattle.judge.specs.Querying.{QueryReport, reported_query};
ghost use Rattle.judge.specs.InTurn.{InTurnReport, reported_in_turn};
ghost use Rattle.judge.specs.Counting.{CountReport, reported_count};
ghost use Rattle.judge.specs.Auditing.{AuditReport, reported_audit};

use graph::MOST_STATES;
use sheet::{Numbered, Refusal};

// How many bytes of a table hold its count, after the cells.
pub(crate) const COUNT_BYTES: usize = 4;

// The limits of a sheet beside that of states, which is the graph's, and the table of one that reaches them all: the cells and the count.
const MOST_NODES: usize = 64;

const MOST_BINDERS: usize = 6;

pub const LARGEST_TABLE: usize = MOST_STATES * MOST_NODES * (MOST_BINDERS + 1) + COUNT_BYTES;

// What a query gives: the verdict, and how many cells it filled.
#[derive(Clone, Copy, Debug, PartialEq, Eq)]
pub struct Judged {
    pub verdict: bool,
    pub visits: usize,
}

// What queries in turn give: how many states come before the first whose verdict is false, and how many cells they filled.
#[derive(Clone, Copy, Debug, PartialEq, Eq)]
pub struct JudgedInTurn {
    pub passed: usize,
    pub visits: usize,
}

// Why a query turns its input down. The count is wrong where it differs from the number of filled cells.
#[derive(Clone, Copy, Debug, PartialEq, Eq)]
pub enum QueryError {
    WrongCount,
    Refused(Refusal),
}

impl From<Refusal> for QueryError {
    ghost use Rattle.judge.specs.declared.QueryError.TheVariants.{Refused};

    ghost from_gives = { λ x e. e ≡ Refused x };

    fn from(x: Refusal) -> QueryError {
        QueryError::Refused(x)
    }
}

impl Numbered for QueryError {
    ghost use Rattle.judge.specs.Querying.{error_number, error_place};

    ghost number = { error_number };

    ghost place = { error_place };

    fn number(&self) -> u8 {
        match self {
            QueryError::WrongCount => 35,
            QueryError::Refused(x) => x.number(),
        }
    }

    fn place(&self) -> u16 {
        match self {
            QueryError::WrongCount => 0,
            QueryError::Refused(x) => x.place(),
        }
    }
}

// What a query reports: the verdict and the visits, false and 0 where it was refused.
pub trait QueryAnswer {
    ghost report: { Self → QueryReport };

    fn verdict(&self) -> bool
        ensures { result ≡ (report self.now).verdict };

    fn visits(&self) -> usize
        ensures { result ≡ (report self.now).visits };
}

impl QueryAnswer for Result<Judged, QueryError> {
    ghost report = { reported_query };

    fn verdict(&self) -> bool {
        self.map_or(false, |judged| judged.verdict)
    }

    fn visits(&self) -> usize {
        self.map_or(0, |judged| judged.visits)
    }
}

// What queries in turn report: how many states passed and the visits, 0 and 0 where they were refused.
pub trait InTurnAnswer {
    ghost report: { Self → InTurnReport };

    fn passed(&self) -> usize
        ensures { result ≡ (report self.now).passed };

    fn visits(&self) -> usize
        ensures { result ≡ (report self.now).visits };
}

impl InTurnAnswer for Result<JudgedInTurn, QueryError> {
    ghost report = { reported_in_turn };

    fn passed(&self) -> usize {
        self.map_or(0, |in_turn| in_turn.passed)
    }

    fn visits(&self) -> usize {
        self.map_or(0, |in_turn| in_turn.visits)
    }
}

// What reading the count of a table reports: the count, 0 where it was refused.
pub trait CountAnswer {
    ghost report: { Self → CountReport };

    fn stored(&self) -> u32
        ensures { result ≡ (report self.now).stored };
}

impl CountAnswer for Result<u32, Refusal> {
    ghost report = { reported_count };

    fn stored(&self) -> u32 {
        self.unwrap_or(0)
    }
}

// What the audit of a filled table reports: yes or no, no where it was refused.
pub trait AuditAnswer {
    ghost report: { Self → AuditReport };

    fn answer(&self) -> bool
        ensures { result ≡ (report self.now).answer };
}

impl AuditAnswer for Result<bool, Refusal> {
    ghost report = { reported_audit };

    fn answer(&self) -> bool {
        self.unwrap_or(false)
    }
}
