// Numbers of any size, by their digits in the text.
ghost use Rattle.std.specs.Prelude.{◌≡◌, min};
ghost use Rattle.text.specs.Numerals.{decimal_value};
ghost use Rattle.aut.specs.Internal.Digits.{below_digits};

// The number of some digits is below that of others: they are fewer, or as many and lower at the first place where they differ.
pub(crate) fn below(digits: &[u8], others: &[u8]) -> bool
    ensures { result ≡ below_digits digits.now others.now }
{
    digits.len() < others.len() || digits.len() == others.len() && digits < others
}

// The number of the digits, or the bound where it is greater: no digit is looked at once the bound is reached.
pub(crate) fn value(digits: &[u8], bound: usize) -> usize
    ensures { result ≡ min (decimal_value digits.now) bound }
{
    let mut value: usize = 0;
    for digit in digits {
        value = value
            .saturating_mul(10)
            .saturating_add(usize::from(digit.saturating_sub(b'0')))
            .min(bound);
        if value == bound {
            break;
        }
    }
    value
}
