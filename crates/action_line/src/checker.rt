// What a token says of the line: whether it is still readable, whether its actions are known, how many entries it has.
ghost use Rattle.std.specs.Prelude.{◌≡◌, ◌+◌, ◌<◌, ◌^◌};
ghost use Rattle.action_line.specs.Reading.{complete, expected_after};
ghost use Rattle.action_line.specs.Entries.{word_count};
ghost use Rattle.action_line.specs.Internal.Lexemes.{held};
ghost use Rattle.action_line.specs.Internal.Checking.{expected_by, expected_or_failed, depth_of, known};

use crate::Token;

// What the line can go on with, and how many parentheses are open.
#[derive(Clone, Copy)]
pub(crate) enum Expected {
    Operand(usize),
    Operator(usize),
}

impl Expected {
    // What is expected after a token; none where the line is unreadable, whatever comes.
    pub(crate) fn after(self, token: Token) -> Option<Expected>
        requires { depth_of (expected_by self) + 1 < 2 ^ 64 }
        ensures { expected_or_failed result ≡ expected_after (expected_by self) (held token) }
    {
        match self {
            Expected::Operand(depth) => match token {
                Token::Number(_) | Token::True | Token::False => Some(Expected::Operator(depth)),
                Token::Not => Some(Expected::Operand(depth)),
                Token::Open => Some(Expected::Operand(depth + 1)),
                _ => None,
            },
            Expected::Operator(depth) => match token {
                Token::And | Token::Or => Some(Expected::Operand(depth)),
                Token::Close => depth.checked_sub(1).map(Expected::Operator),
                _ => None,
            },
        }
    }

    // The line can end here.
    pub(crate) fn is_complete(self) -> bool
        ensures { result ≡ complete (expected_by self) }
    {
        matches!(self, Expected::Operator(0))
    }
}

impl Token {
    // How many entries it stands for.
    pub(crate) fn entries(self) -> usize
        ensures { result ≡ word_count (held self) }
    {
        match self {
            Token::Open | Token::Close | Token::Invalid => 0,
            _ => 1,
        }
    }

    // It is no number, or a number below A.
    pub(crate) fn is_known(self, actions: u8) -> bool
        ensures { result ≡ known actions (held self) }
    {
        match self {
            Token::Number(n) => n < actions,
            _ => true,
        }
    }
}
