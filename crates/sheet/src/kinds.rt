// The kinds of nodes and of action entries.
ghost use Rattle.std.specs.Prelude.{◌≡◌};
ghost use Rattle.sheet.specs.Kinds.{child_count};
ghost use Rattle.sheet.specs.KindNumbers.{ReadsNodeKind, ReadsEntryKind};

// What a node is: the constants, or and and, some (a diamond) and every (a box), a variable, least and greatest fixed points.
#[derive(Clone, Copy, Debug, PartialEq, Eq)]
pub enum NodeKind {
    False,
    True,
    Or,
    And,
    Diamond,
    Box,
    Variable,
    Least,
    Greatest,
}

// What an action entry is: the constants, one action, or, and, not, every action from one to another.
#[derive(Clone, Copy, Debug, PartialEq, Eq)]
pub enum EntryKind {
    False,
    True,
    Action,
    Or,
    And,
    Not,
    Range,
}

// A number that no kind has.
#[derive(Clone, Copy, Debug, PartialEq, Eq)]
pub struct UnknownKind(pub u8);

impl TryFrom<u8> for NodeKind {
    type Error = UnknownKind;

    ghost try_from_gives = { ReadsNodeKind };

    fn try_from(number: u8) -> Result<NodeKind, UnknownKind> {
        match number {
            0 => Ok(NodeKind::False),
            1 => Ok(NodeKind::True),
            2 => Ok(NodeKind::Or),
            3 => Ok(NodeKind::And),
            4 => Ok(NodeKind::Diamond),
            5 => Ok(NodeKind::Box),
            6 => Ok(NodeKind::Variable),
            7 => Ok(NodeKind::Least),
            8 => Ok(NodeKind::Greatest),
            _ => Err(UnknownKind(number)),
        }
    }
}

impl TryFrom<u8> for EntryKind {
    type Error = UnknownKind;

    ghost try_from_gives = { ReadsEntryKind };

    fn try_from(number: u8) -> Result<EntryKind, UnknownKind> {
        match number {
            0 => Ok(EntryKind::False),
            1 => Ok(EntryKind::True),
            2 => Ok(EntryKind::Action),
            3 => Ok(EntryKind::Or),
            4 => Ok(EntryKind::And),
            5 => Ok(EntryKind::Not),
            6 => Ok(EntryKind::Range),
            _ => Err(UnknownKind(number)),
        }
    }
}

// How many children a node of the kind has; a number that is no kind has none. By comparisons: of a `match` that gives a number for each kind
// the compiler makes a table of constants.
pub fn child_count(kind: u8) -> u8
    ensures { result ≡ child_count kind }
{
    if kind < 2 {
        0
    } else if kind < 4 {
        2
    } else if kind < 6 {
        1
    } else if kind < 7 {
        0
    } else if kind < 9 {
        1
    } else {
        0
    }
}
