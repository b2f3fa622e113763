// A sheet is read front to back from its table of contents, through a reader: heading, entries, bodies and the end of the file.
ghost use Rattle.std.specs.Prelude.{◌≡◌, ◌+◌, ◌<◌, drop};
ghost use Rattle.sheet.specs.Internal.Entry.{heading_at, entry_at, entry_fits, entries_fit, check_taken, check_in_order};

use crate::body_check::check_bodies;
use crate::decode::{byte_at, narrow_at, slice_of, word_at};
use crate::{HEAD_LENGTH, LONGEST, Refusal};

// The sheet that is lent, and a place in it.
#[derive(Clone, Copy)]
pub(crate) struct Reader<'a> {
    pub(crate) sheet: &'a [u8],
    pub(crate) at: usize,
}

// An entry of the table of contents.
#[derive(Clone, Copy)]
pub(crate) struct Entry {
    pub(crate) kind: u8,
    pub(crate) offset: u16,
    pub(crate) length: u16,
}

// What the reader's functions do, on the sheet and the place: they stay apart from it, as the reader's form is.
fn heading_at(s: &[u8], at: usize) -> bool
    requires { at < 1000 }
    ensures { result ≡ heading_at s.now at }
{
    byte_at(s, at) == 1 && byte_at(s, at + 1) == 3
}

fn entry_at(s: &[u8], at: usize) -> Entry
    requires { at < 1000 }
    ensures { result ≡ entry_at s.now at }
{
    Entry {
        kind: narrow_at(s, at),
        offset: word_at(s, at + 1) as u16,
        length: word_at(s, at + 3) as u16,
    }
}

fn rest_at(s: &[u8], at: usize) -> &[u8]
    ensures { result.now ≡ drop at s.now }
{
    s.get(at..).unwrap_or_default()
}

impl<'a> Reader<'a> {
    // A reader at the front of the sheet.
    fn start(sheet: &'a [u8]) -> Reader<'a>
        ensures { (result.sheet ≡ sheet.entry) × (result.at ≡ 0) }
    {
        Reader { sheet, at: 0 }
    }

    // The reader n bytes on.
    fn skip(self, n: usize) -> Reader<'a>
        requires { (self.at < 1000) × (n < 1000) }
        ensures { (result.sheet ≡ self.entry.sheet) × (result.at ≡ self.entry.at + n) }
    {
        Reader {
            sheet: self.sheet,
            at: self.at + n,
        }
    }

    // Whether the heading stands here.
    fn read_heading(self) -> bool
        requires { self.at < 1000 }
        ensures { result ≡ heading_at self.entry.sheet.now self.entry.at }
    {
        heading_at(self.sheet, self.at)
    }

    // The entry that stands here: kind, offset and length.
    fn read_entry(self) -> Entry
        requires { self.at < 1000 }
        ensures { result ≡ entry_at self.entry.sheet.now self.entry.at }
    {
        entry_at(self.sheet, self.at)
    }

    // All that follows, to the end of the file.
    fn read_rest(self) -> &'a [u8]
        ensures { result.now ≡ drop self.entry.at self.entry.sheet.now }
    {
        rest_at(self.sheet, self.at)
    }
}

fn entry_fits(e: Entry, kind: u8, offset: usize) -> bool
    ensures { result ≡ entry_fits e kind offset }
{
    e.kind == kind && usize::from(e.offset) == offset
}

// Kinds, offsets and lengths of the three entries, and the length of the file.
fn entries_fit(plan: Entry, actions: Entry, rule: Entry, end: usize) -> bool
    ensures { result ≡ entries_fit plan actions rule end }
{
    let second = HEAD_LENGTH + usize::from(plan.length);
    let third = second + usize::from(actions.length);
    entry_fits(plan, 1, HEAD_LENGTH)
        && entry_fits(actions, 2, second)
        && entry_fits(rule, 3, third)
        && end == third + usize::from(rule.length)
        && end <= LONGEST
}

// Refusals 2 to 10, of what was taken from the sheet: after the table of contents the bodies follow one another, to the end of the file.
fn check_taken(
    heading: bool,
    plan: Entry,
    actions: Entry,
    rule: Entry,
    bodies: &[u8],
) -> Result<(), Refusal>
    ensures { result ≡ check_taken heading plan actions rule bodies.now }
{
    if !heading {
        return Err(Refusal::Heading);
    }
    if !entries_fit(plan, actions, rule, HEAD_LENGTH + bodies.len()) {
        return Err(Refusal::Contents);
    }
    let first = usize::from(plan.length);
    let second = usize::from(actions.length);
    let third = usize::from(rule.length);
    check_bodies(
        slice_of(bodies, 0, first),
        slice_of(bodies, first, second),
        slice_of(bodies, first + second, third),
    )
}

// Refusals 2 to 10: the sheet is taken through the reader, front to back, two bytes of heading, three entries of five, the bodies, and then judged.
pub(crate) fn check_in_order(sheet: &[u8]) -> Result<(), Refusal>
    ensures { result ≡ check_in_order sheet.now }
{
    let front = Reader::start(sheet);
    let first = front.skip(2);
    let second = first.skip(5);
    let third = second.skip(5);
    let bodies = third.skip(5);
    check_taken(
        front.read_heading(),
        first.read_entry(),
        second.read_entry(),
        third.read_entry(),
        bodies.read_rest(),
    )
}
