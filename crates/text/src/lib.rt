// Texts put together in a buffer: a text, a number in decimal, `true` or `false`, the line of a refusal; and whether two texts are the same. A `Writer`
// puts each text at its place of the buffer and goes on after it. Where the text does not fit it puts nothing, and its place is past the end, where
// nothing fits any more: so a line of several texts is put by one call after another, and only the last place is tested.
#![tactic(auto)]

ghost use Rattle.std.specs.Prelude.{◌≡◌};
ghost use Rattle.text.specs.Comparing.{same_text};
ghost use Rattle.text.specs.Decimal.{decimal_of};
ghost use Rattle.text.specs.Placing.{buffer_after, place_after};
ghost use Rattle.text.specs.RefusalLine.{refusal_line};
ghost use Rattle.text.specs.Words.{bool_text};

// Room for every line of a refusal, whatever its numbers: `refused`, two numbers of at most 20 digits, two spaces and the line feed.
pub const REFUSAL_LENGTH: usize = 50;

// A number of 64 bits has at most so many digits.
const MOST_DIGITS: usize = 20;

// A lent buffer, and the place in it where the next text is put.
#[derive(Drop)]
pub struct Writer<'a> {
    pub out: &'a mut [u8],
    pub place: usize,
}

impl<'a> Writer<'a> {
    pub fn new(out: &'a mut [u8]) -> Writer<'a>
        ensures place { result.place ≡ 0 }
        ensures out_after { result.out.now ≡ out.old }
        ensures same_buffer { result.out.ghost_name ≡ out.entry.ghost_name }
    {
        Writer::at(0, out)
    }

    pub fn at(place: usize, out: &'a mut [u8]) -> Writer<'a>
        ensures place { result.place ≡ place }
        ensures out_after { result.out.now ≡ out.old }
        ensures same_buffer { result.out.ghost_name ≡ out.entry.ghost_name }
    {
        Writer { out, place }
    }

    pub fn put(&mut self, text: &[u8])
        ensures place { self.new.place ≡ place_after text.now self.old.place self.old.out.now }
        ensures out_after { self.new.out.now ≡ buffer_after text.now self.old.place self.old.out.now }
        ensures same_buffer { self.new.out.ghost_name ≡ self.old.out.ghost_name }
    {
        match self.place.checked_add(text.len()) {
            Some(end) if end <= self.out.len() => {
                self.out[self.place..end].copy_from_slice(text);
                self.place = end;
            }
            _ => self.place = self.out.len() + 1,
        }
    }

    // The digits are found from the last to the first. A while loop: it ends with the number's digits, and not with the array.
    pub fn put_decimal(&mut self, n: u64)
        ensures place { self.new.place ≡ place_after (decimal_of n) self.old.place self.old.out.now }
        ensures out_after { self.new.out.now ≡ buffer_after (decimal_of n) self.old.place self.old.out.now }
        ensures same_buffer { self.new.out.ghost_name ≡ self.old.out.ghost_name }
    {
        let mut digits = [0u8; MOST_DIGITS];
        let mut first = MOST_DIGITS - 1;
        let mut rest = n;
        while rest >= 10 {
            digits[first] = b'0' + (rest % 10) as u8;
            first -= 1;
            rest /= 10;
        }
        digits[first] = b'0' + rest as u8;
        self.put(&digits[first..]);
    }

    pub fn put_bool(&mut self, b: bool)
        ensures place { self.new.place ≡ place_after (bool_text b) self.old.place self.old.out.now }
        ensures out_after { self.new.out.now ≡ buffer_after (bool_text b) self.old.place self.old.out.now }
        ensures same_buffer { self.new.out.ghost_name ≡ self.old.out.ghost_name }
    {
        if b {
            self.put(b"true");
        } else {
            self.put(b"false");
        }
    }

    // The line of a refusal, put together in a buffer of its own, so that all of it is put or nothing.
    pub fn put_refusal(&mut self, number: u8, place: u16)
        ensures place { self.new.place ≡ place_after (refusal_line number place) self.old.place self.old.out.now }
        ensures out_after { self.new.out.now ≡ buffer_after (refusal_line number place) self.old.place self.old.out.now }
        ensures same_buffer { self.new.out.ghost_name ≡ self.old.out.ghost_name }
    {
        let mut buffer = [0u8; REFUSAL_LENGTH];
        let mut line = Writer::new(&mut buffer);
        line.put(b"refused ");
        line.put_decimal(number as u64);
        line.put(b" ");
        line.put_decimal(place as u64);
        line.put(b"\n");
        let end = line.place;
        self.put(&line.out[..end]);
    }
}

// The line of a refusal put at a place, and the place after it: one call for a program that answers with that line alone.
pub fn put_refusal(number: u8, place: u16, at: usize, out: &mut [u8]) -> usize
    ensures value { result ≡ place_after (refusal_line number place) at out.old }
    ensures out_after { out.new ≡ buffer_after (refusal_line number place) at out.old }
{
    let mut writer = Writer::at(at, out);
    writer.put_refusal(number, place);
    writer.place
}

// Whether two texts are the same, byte for byte.
#[tactic(auto, using(crate::proofs::Comparing::pointwise_same))]
pub fn same(text: &[u8], other: &[u8]) -> bool
    ensures { result ≡ same_text text.now other.now }
{
    text == other
}
