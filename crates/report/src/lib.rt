// A report for the counter terminal: the table of a sheet is cleared, a list of queries is run in order, and a text says what each of them gave, a line
// for each and the total of the visits in the last. It rests on what the judge promises of clearing, query and stored count, and on nothing else of it.
#![tactic(auto)]

mod line;
pub mod reporting;

ghost use Rattle.std.specs.Prelude.{◌≡◌, Err};
ghost use Rattle.report.specs.Reporting.{TextReport, reported_text};
ghost use Rattle.report.specs.declared.ReportError.TheVariants.{Refused};

use sheet::{Numbered, Refusal};

// The most queries of a report.
pub const MOST_QUERIES: usize = 64;

// The shortest output that is taken: room for every report.
pub const LEAST_OUTPUT: usize = 1036;

// Why a report is turned down: too many queries, or what clearing refuses, or an output that is too short.
#[derive(Clone, Copy, Debug, PartialEq, Eq)]
pub enum ReportError {
    TooManyQueries,
    Refused(Refusal),
}

impl From<Refusal> for ReportError {
    ghost from_gives = { λ x e. e ≡ Refused x };

    fn from(x: Refusal) -> ReportError {
        ReportError::Refused(x)
    }
}

impl Numbered for ReportError {
    ghost number = { λ e. (reported_text (Err e)).number };

    ghost place = { λ e. (reported_text (Err e)).place };

    fn number(&self) -> u8 {
        match self {
            ReportError::TooManyQueries => 36,
            ReportError::Refused(x) => x.number(),
        }
    }

    fn place(&self) -> u16 {
        match self {
            ReportError::TooManyQueries => 0,
            ReportError::Refused(x) => x.place(),
        }
    }
}

// What a report says of itself beside number and place: the length of its text, 0 where it was turned down.
pub trait ReportAnswer {
    ghost report: { Self → TextReport };

    fn length(&self) -> usize
        ensures { result ≡ (report self.now).size };
}

impl ReportAnswer for Result<usize, ReportError> {
    ghost report = { reported_text };

    fn length(&self) -> usize {
        self.unwrap_or(0)
    }
}

// The running tally, the visits of the queries so far, and beside it the length of their lines, which is where the next one goes.
#[derive(Clone, Copy)]
pub(crate) struct Tally {
    pub(crate) visits: usize,
    pub(crate) length: usize,
}
