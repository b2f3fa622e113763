// The tokens of a line, one at a time: letters and digits with no other byte between them are one token.
ghost use Rattle.std.specs.Prelude.{◌≡◌, ◌==◌, false, true, ◌<◌, ◌≤◌, length, get_or};
ghost use Rattle.std.specs.List.{prefix_len};
ghost use Rattle.text.specs.Numerals.{is_digit};
ghost use Rattle.action_line.specs.Lexing.{token_of};
ghost use Rattle.action_line.specs.Internal.Lexemes.{is_word_byte, leading_zero, capped, held};

use crate::Token;

fn is_word_byte(b: u8) -> bool
    ensures { result ≡ is_word_byte b }
{
    b.is_ascii_digit() || b.is_ascii_lowercase()
}

// How many letters and digits are at the front.
fn word_length(line: &[u8]) -> usize
    ensures value { result ≡ prefix_len is_word_byte line.now }
    ensures within { result ≤ length line.now }
{
    line.iter().take_while(|b| is_word_byte(**b)).count()
}

// How many spaces are at the front.
fn space_length(line: &[u8]) -> usize
    ensures value { result ≡ prefix_len (λ b. b == 32) line.now }
    ensures within { result ≤ length line.now }
{
    line.iter().take_while(|b| **b == b' ').count()
}

fn has_leading_zero(word: &[u8]) -> bool
    ensures { result ≡ leading_zero word.now }
{
    1 < word.len() && word[0] == b'0'
}

// A word that begins with a digit is a number, or invalid. That it has a byte is asked as it is: a type for it would be made at one place and read at two.
fn number(word: &[u8]) -> Token
    requires { (0 < length word.now) × (is_digit (get_or word.now 0 0) ≡ true) }
    ensures { held result ≡ capped (token_of word.now) }
{
    if has_leading_zero(word) {
        return Token::Invalid;
    }
    let mut value: u8 = 0;
    for digit in word {
        if !digit.is_ascii_digit() {
            return Token::Invalid;
        }
        value = value.saturating_mul(10).saturating_add(*digit - b'0');
    }
    Token::Number(value)
}

// Any other is one of five words, or invalid.
fn keyword(word: &[u8]) -> Token
    requires { (0 < length word.now) × (is_digit (get_or word.now 0 0) ≡ false) }
    ensures { held result ≡ capped (token_of word.now) }
{
    if word == b"true".as_slice() {
        Token::True
    } else if word == b"false".as_slice() {
        Token::False
    } else if word == b"not".as_slice() {
        Token::Not
    } else if word == b"and".as_slice() {
        Token::And
    } else if word == b"or".as_slice() {
        Token::Or
    } else {
        Token::Invalid
    }
}

fn token_of(word: &[u8]) -> Token
    requires { 0 < length word.now }
    ensures { held result ≡ capped (token_of word.now) }
{
    if word[0].is_ascii_digit() {
        number(word)
    } else {
        keyword(word)
    }
}

// The tokens of the bytes that are left.
#[derive(Drop)]
pub(crate) struct Tokens<'a> {
    pub rest: &'a [u8],
}

impl<'a> Tokens<'a> {
    ghost use Rattle.action_line.specs.Internal.Lexemes.{tokens_held, tokens_left};

    pub(crate) fn new(line: &'a [u8]) -> Tokens<'a>
        ensures { tokens_left result ≡ tokens_held line.now }
    {
        Tokens { rest: line }
    }
}

impl<'a> Iterator for Tokens<'a> {
    ghost use Rattle.std.specs.Iterator.{YieldsFirstBy, item_count};
    ghost use Rattle.action_line.specs.Internal.Lexemes.{tokens_left};

    type Item = Token;

    ghost next_gives = { YieldsFirstBy held tokens_left };

    ghost remaining = { item_count tokens_left };

    fn next(&mut self) -> Option<Token> {
        let spaces = space_length(self.rest);
        let (_, line) = self.rest.split_at(spaces);
        let (first, behind) = line.split_first()?;
        if is_word_byte(*first) {
            let (word, behind) = line.split_at(word_length(line));
            self.rest = behind;
            return Some(token_of(word));
        }
        self.rest = behind;
        match *first {
            b'(' => Some(Token::Open),
            b')' => Some(Token::Close),
            _ => Some(Token::Invalid),
        }
    }
}
