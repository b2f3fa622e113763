// The sheet: a plan and a rule in one file. Reader, writer and the functions that read a sheet's fields.
#![tactic(auto)]

ghost use Rattle.std.specs.Prelude.{◌≡◌, ℕ};
ghost use Rattle.sheet.specs.Refusals.{number_of, place_of, answer_number};

pub mod actions;
mod body_check;
mod contents;
pub mod decode;
pub mod kinds;
pub mod plan;
pub mod reader;
pub mod rule;
pub mod writer;

// The bytes before the first body, and those of the longest sheet.
pub const HEAD_LENGTH: usize = 17;

pub const LONGEST: usize = 6455;

// Numbers of states, nodes, actions and variables: one never stands for another.
#[derive(Clone, Copy, Debug, PartialEq, Eq, PartialOrd, Ord)]
pub struct State(pub u8);

#[derive(Clone, Copy, Debug, PartialEq, Eq, PartialOrd, Ord)]
pub struct Node(pub u8);

#[derive(Clone, Copy, Debug, PartialEq, Eq, PartialOrd, Ord)]
pub struct Action(pub u8);

#[derive(Clone, Copy, Debug, PartialEq, Eq, PartialOrd, Ord)]
pub struct Variable(pub u8);

// A transition of the plan. The order is that of the plan: by origin, then action, then target.
#[derive(Clone, Copy, Debug, PartialEq, Eq, PartialOrd, Ord)]
pub struct Transition {
    pub from: State,
    pub action: Action,
    pub to: State,
}

// The three bytes of an action entry or of a node; kinds has the names of their kinds.
#[derive(Clone, Copy, Debug, PartialEq, Eq)]
pub struct Fields {
    pub kind: u8,
    pub x: u8,
    pub y: u8,
}

// Why a call turns its input down; a case that has a place holds it.
#[derive(Clone, Copy, Debug, PartialEq, Eq)]
pub enum Refusal {
    TooShort,
    Heading,
    Contents,
    PlanSize,
    TransitionFault(u16),
    ActionsSize,
    EntryFault(u8),
    RuleSize,
    SyntaxFault(Node),
    BindingFault(Node),
    NoSuchState,
    Loop,
    TooManyStates,
    TableShort,
    TableByte,
    OutputShort,
}

// What became of the input of a call, as two numbers: 0 and 0 where it was accepted; else the number of the refusal, and the faulty transition, entry or
// node, 0 where none is named.
pub trait Numbered {
    ghost number: { Self → ℕ };

    ghost place: { Self → ℕ };

    fn number(&self) -> u8
        ensures { result ≡ number self.now };

    fn place(&self) -> u16
        ensures { result ≡ place self.now };
}

impl Numbered for Refusal {
    ghost number = { number_of };

    ghost place = { place_of };

    fn number(&self) -> u8 {
        match self {
            Refusal::TooShort => 1,
            Refusal::Heading => 2,
            Refusal::Contents => 3,
            Refusal::PlanSize => 4,
            Refusal::TransitionFault(_) => 5,
            Refusal::ActionsSize => 6,
            Refusal::EntryFault(_) => 7,
            Refusal::RuleSize => 8,
            Refusal::SyntaxFault(_) => 9,
            Refusal::BindingFault(_) => 10,
            Refusal::NoSuchState => 11,
            Refusal::Loop => 12,
            Refusal::TooManyStates => 13,
            Refusal::TableShort => 20,
            Refusal::TableByte => 21,
            Refusal::OutputShort => 22,
        }
    }

    fn place(&self) -> u16 {
        match self {
            Refusal::TransitionFault(t) => *t,
            Refusal::EntryFault(e) => u16::from(*e),
            Refusal::SyntaxFault(n) | Refusal::BindingFault(n) => u16::from(n.0),
            _ => 0,
        }
    }
}

// The number of an accepted input.
const ACCEPTED: u8 = 0;

// An accepted input has number 0 and place 0, a refused one those of the error.
impl<T, E: Numbered> Numbered for Result<T, E> {
    ghost number = { answer_number E.number };

    ghost place = { answer_number E.place };

    fn number(&self) -> u8 {
        match self {
            Ok(_) => ACCEPTED,
            Err(e) => e.number(),
        }
    }

    fn place(&self) -> u16 {
        match self {
            Ok(_) => 0,
            Err(e) => e.place(),
        }
    }
}

// Where a body lies in its sheet.
#[derive(Clone, Copy, Debug, PartialEq, Eq)]
pub struct Span {
    pub offset: usize,
    pub length: usize,
}

// Where the three bodies lie.
#[derive(Clone, Copy, Debug, PartialEq, Eq)]
pub struct Bodies {
    pub plan: Span,
    pub actions: Span,
    pub rule: Span,
}
