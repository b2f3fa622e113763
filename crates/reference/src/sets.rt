// Sets of states, and the context that gives each variable its set.
ghost use Rattle.std.specs.Prelude.{◌≡◌, ℕ, List, ◌-◌, ◌^◌, ◌<◌, ◌≤◌, get_or, set, replicate, bit_and, bit_or, bit_xor};
ghost use Rattle.calculus.specs.MeetingMask.{bit};
ghost use Rattle.sheet.specs.KindNumbers.{node_kind_number};
ghost use Rattle.sheet.specs.Rule.{node_count};
ghost use Rattle.reference.specs.Internal.Evaluating.{Restartable, Restarted};

use sheet::kinds::NodeKind;
use sheet::rule::{node, node_count};
use sheet::{Node, State, Variable};
use std::marker::Model;
use std::ops::{BitAnd, BitOr, BitXor};

// A set of states: bit s of its word is set exactly when state s is in it.
#[derive(Clone, Copy, PartialEq, Eq)]
pub(crate) struct States {
    word: u64,
}

impl Model for States {
    ghost Value = { ℕ };

    ghost view = { λ s. s.word };

    ghost inverse = { λ w. record { word = w } };
}

impl States {
    pub(crate) fn none() -> States
        ensures { result ≡ 0 }
    {
        States { word: 0 }
    }

    // The states below count.
    pub(crate) fn all(count: u8) -> States
        requires { count ≤ 64 }
        ensures { result ≡ 2 ^ count - 1 }
    {
        let word = if count < 64 {
            (1 << count) - 1
        } else {
            u64::MAX
        };
        States { word }
    }

    pub(crate) fn contains(self, s: State) -> bool
        ensures { result ≡ bit self s.0 }
    {
        s.0 < 64 && (self.word >> s.0) % 2 == 1
    }

    // The set with state s.
    pub(crate) fn with(self, s: State) -> States
        requires { s.0 < 64 }
        ensures { result ≡ bit_or self (2 ^ s.0) }
    {
        States {
            word: self.word | 1 << s.0,
        }
    }

    pub(crate) fn word(self) -> u64
        ensures { result ≡ self }
    {
        self.word
    }
}

impl BitOr for States {
    type Output = States;

    ghost bitor_gives = { λ v w both. both ≡ bit_or v w };

    fn bitor(self, other: States) -> States {
        States {
            word: self.word | other.word,
        }
    }
}

impl BitAnd for States {
    type Output = States;

    ghost bitand_gives = { λ v w both. both ≡ bit_and v w };

    fn bitand(self, other: States) -> States {
        States {
            word: self.word & other.word,
        }
    }
}

impl BitXor for States {
    type Output = States;

    ghost bitxor_gives = { λ v w one. one ≡ bit_xor v w };

    fn bitxor(self, other: States) -> States {
        States {
            word: self.word ^ other.word,
        }
    }
}

// The set of each variable.
#[derive(Drop)]
pub(crate) struct Context {
    sets: [States; 6],
}

impl Model for Context {
    ghost Value = { List ℕ };

    ghost view = { λ c. c.sets };
}

impl Context {
    // The empty set for each variable.
    pub(crate) fn new() -> Context
        ensures { result ≡ replicate 6 0 }
    {
        Context {
            sets: [States::none(); 6],
        }
    }

    pub(crate) fn set_of(&self, x: Variable) -> States
        requires { x.0 < 6 }
        ensures { result ≡ get_or self.now x.0 0 }
    {
        self.sets[usize::from(x.0)]
    }

    pub(crate) fn put(&mut self, x: Variable, states: States)
        requires { x.0 < 6 }
        ensures { self.new ≡ set self.old x.0 states }
    {
        self.sets[usize::from(x.0)] = states;
    }

    // The same set for each variable that a fixed point of the kind binds from a node on.
    pub(crate) fn restart(&mut self, rule: &[u8], first: Node, kind: NodeKind, states: States)
        requires { Restartable rule.now first.0 (node_kind_number kind) }
        ensures { Restarted rule.now first.0 (node_count rule.now) (node_kind_number kind) states self.old self.new }
    {
        for n in first.0..node_count(rule) {
            let fields = node(rule, Node(n));
            if fields.kind == kind as u8 {
                self.put(Variable(fields.x), states);
            }
        }
    }
}
