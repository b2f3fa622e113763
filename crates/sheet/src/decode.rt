// Bytes, 16-bit fields and slices of a list of bytes. A byte past the end is 0, and a slice has the bytes that there are.
ghost use Rattle.std.specs.Prelude.{◌≡◌, ◌+◌, ◌*◌, ◌<◌, length};
ghost use Rattle.sheet.specs.Bytes.{byte, word, slice};
ghost use Rattle.sheet.specs.Fields.{fields_at};

use crate::Fields;

pub(crate) fn byte_at(s: &[u8], i: usize) -> usize
    ensures { (result ≡ byte s.now i) × (result < 256) }
{
    usize::from(narrow_at(s, i))
}

// The same where the place is known to be within.
pub(crate) fn byte_in(s: &[u8], i: usize) -> usize
    requires { i < length s.now }
    ensures { (result ≡ byte s.now i) × (result < 256) }
{
    usize::from(s[i])
}

pub(crate) fn word_at(s: &[u8], i: usize) -> usize
    requires { i < 65536 }
    ensures { (result ≡ word s.now i) × (result < 65536) }
{
    byte_at(s, i) + 256 * byte_at(s, i + 1)
}

// The length bytes from start on, or those that there are.
pub fn slice_of(s: &[u8], start: usize, length: usize) -> &[u8]
    ensures { result.now ≡ slice s.now start length }
{
    let rest = s.get(start..).unwrap_or_default();
    rest.get(..length).unwrap_or(rest)
}

// A byte as a byte.
pub(crate) fn narrow_at(s: &[u8], i: usize) -> u8
    ensures { result ≡ byte s.now i }
{
    s.get(i).copied().unwrap_or(0)
}

// A byte of item i, where items of three bytes follow one another and base is that byte's place in item 0.
pub(crate) fn field_at(s: &[u8], base: usize, i: usize) -> u8
    requires { (base < 256) × (i < 65536) }
    ensures { result ≡ byte s.now (base + 3 * i) }
{
    narrow_at(s, base + 3 * i)
}

// The three bytes of entry or node i of a body.
pub(crate) fn fields_at(body: &[u8], i: u8) -> Fields
    ensures { result ≡ fields_at body.now i }
{
    let at = usize::from(i);
    Fields {
        kind: field_at(body, 1, at),
        x: field_at(body, 2, at),
        y: field_at(body, 3, at),
    }
}
