// Reading from the front: each function takes a piece and gives what is left of the text after it, or `None` where the piece is not there.
ghost use Rattle.std.specs.Prelude.{◌≡◌};
ghost use Rattle.std.specs.List.{prefix_len};
ghost use Rattle.text.specs.Numerals.{is_digit};
ghost use Rattle.aut.specs.Texts.{is_label_byte};
ghost use Rattle.aut.specs.Scanning.{rest, take_while, drop_while, after_byte, after_space};
ghost use Rattle.aut.specs.Internal.Pieces.{rest_of, NumeralRead};

// The byte b.
pub(crate) fn after_byte(text: &[u8], b: u8) -> Option<&[u8]>
    ensures { rest_of result ≡ after_byte b (rest text.now) }
{
    match text {
        [first, rest @ ..] if *first == b => Some(rest),
        _ => None,
    }
}

// A space, or nothing.
pub(crate) fn after_space(text: &[u8]) -> &[u8]
    ensures { rest result.now ≡ after_space (rest text.now) }
{
    match text {
        [b' ', rest @ ..] => rest,
        _ => text,
    }
}

// How many digits stand at the front.
fn digit_count(text: &[u8]) -> usize
    ensures { result ≡ prefix_len is_digit text.now }
{
    text.iter().take_while(|b| b.is_ascii_digit()).count()
}

// A number: its digits, and what is left.
pub(crate) fn numeral(text: &[u8]) -> Option<(&[u8], &[u8])>
    ensures { NumeralRead text.now result }
{
    match text {
        [b'0', ..] => Some(text.split_at(1)),
        [b'1'..=b'9', ..] => Some(text.split_at(digit_count(text))),
        _ => None,
    }
}

// How many bytes of a label stand at the front.
fn label_length(text: &[u8]) -> usize
    ensures { result ≡ prefix_len is_label_byte text.now }
{
    text.iter()
        .take_while(|&&b| b != b'"' && b != b'\n')
        .count()
}

// A label, and what is left.
pub(crate) fn label(text: &[u8]) -> (&[u8], &[u8])
    ensures label { result.0.now ≡ take_while is_label_byte text.now }
    ensures left { result.1.now ≡ drop_while is_label_byte text.now }
{
    text.split_at(label_length(text))
}
