// Parked branches: one more transition is proposed for a sheet, and then added to it.
//
// A proposal says where the transition goes, how long the new file is, and the tag of the bytes it was made for. It is never trusted: both
// calls go through the same examination, and commit compares the fresh proposal with the one handed in before it writes.
#![tactic(auto)]

pub mod committing;
mod examining;
mod inserting;
mod placing;
pub mod proposing;
mod tagging;

ghost use Rattle.std.specs.Prelude.{◌≡◌, Err};
ghost use Rattle.branches.specs.Proposing.{ProposalReport, reported_proposal};
ghost use Rattle.branches.specs.Committing.{CommitReport, reported_commit, stopped_by};
ghost use Rattle.branches.specs.declared.ProposeError.TheVariants as Proposing;
ghost use Rattle.branches.specs.declared.CommitError.TheVariants.{Refused};

use sheet::{Numbered, Refusal};

// How many transitions stand before the new one, which is its number; the length of the new file; and the tag of the old one.
#[derive(Clone, Copy, Debug, Default, PartialEq, Eq)]
pub struct Proposal {
    pub insertion: u16,
    pub length: usize,
    pub tag: u32,
}

// Why a transition isn't proposed: the plan does not take it, or the sheet's own refusal.
#[derive(Clone, Copy, Debug, PartialEq, Eq)]
pub enum ProposeError {
    BranchUnfit,
    Refused(Refusal),
}

impl From<Refusal> for ProposeError {
    ghost from_gives = { λ x e. e ≡ Proposing.Refused x };

    fn from(x: Refusal) -> ProposeError {
        ProposeError::Refused(x)
    }
}

impl Numbered for ProposeError {
    ghost number = { λ e. (reported_proposal (Err e)).number };

    ghost place = { λ e. (reported_proposal (Err e)).place };

    fn number(&self) -> u8 {
        match self {
            ProposeError::BranchUnfit => 40,
            ProposeError::Refused(x) => x.number(),
        }
    }

    fn place(&self) -> u16 {
        match self {
            ProposeError::BranchUnfit => 0,
            ProposeError::Refused(x) => x.place(),
        }
    }
}

// What propose reports beside number and place: the proposal, all 0 where it was refused.
pub trait ProposeAnswer {
    ghost report: { Self → ProposalReport };

    fn proposal(&self) -> Proposal
        ensures { result ≡ (report self.now).proposal };
}

impl ProposeAnswer for Result<Proposal, ProposeError> {
    ghost report = { reported_proposal };

    fn proposal(&self) -> Proposal {
        self.unwrap_or_default()
    }
}

// Why no sheet is written: the plan does not take the transition, the proposal is not the fresh one, or a refusal, that of a short output among them.
#[derive(Clone, Copy, Debug, PartialEq, Eq)]
pub enum CommitError {
    BranchUnfit,
    ProposalDiffers,
    Refused(Refusal),
}

impl From<Refusal> for CommitError {
    ghost from_gives = { λ x e. e ≡ Refused x };

    fn from(x: Refusal) -> CommitError {
        CommitError::Refused(x)
    }
}

impl From<ProposeError> for CommitError {
    ghost from_gives = { λ x e. e ≡ stopped_by x };

    fn from(x: ProposeError) -> CommitError {
        match x {
            ProposeError::BranchUnfit => CommitError::BranchUnfit,
            ProposeError::Refused(x) => CommitError::Refused(x),
        }
    }
}

impl Numbered for CommitError {
    ghost number = { λ e. (reported_commit (Err e)).number };

    ghost place = { λ e. (reported_commit (Err e)).place };

    fn number(&self) -> u8 {
        match self {
            CommitError::BranchUnfit => 40,
            CommitError::ProposalDiffers => 41,
            CommitError::Refused(x) => x.number(),
        }
    }

    fn place(&self) -> u16 {
        match self {
            CommitError::BranchUnfit | CommitError::ProposalDiffers => 0,
            CommitError::Refused(x) => x.place(),
        }
    }
}

// What commit reports beside number and place: the length of the new sheet, 0 where none was written.
pub trait CommitAnswer {
    ghost report: { Self → CommitReport };

    fn length(&self) -> usize
        ensures { result ≡ (report self.now).size };
}

impl CommitAnswer for Result<usize, CommitError> {
    ghost report = { reported_commit };

    fn length(&self) -> usize {
        self.unwrap_or(0)
    }
}
