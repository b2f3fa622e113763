// Labels, numbered by first appearance.
ghost use Rattle.std.specs.Prelude.{◌≡◌, ◌<◌, ◌≤◌, [], length};
ghost use Rattle.std.specs.List.{position_or_len};
ghost use Rattle.aut.specs.Plans.{label_number, with_label};
ghost use Rattle.aut.specs.Internal.Held.{mixed, sum_of, is_held};

use std::marker::Model;

// Room for one label more than a plan may have.
const LABEL_ROOM: usize = 256;

// A hint for each slot of checksums, four times as many as labels.
const HINT_ROOM: usize = 1024;

fn mix(sum: u32, byte: u8) -> u32
    ensures { result ≡ mixed sum byte }
{
    sum.wrapping_mul(31).wrapping_add(u32::from(byte))
}

// The checksum of a label: labels with different ones are different.
fn checksum(label: &[u8]) -> u32
    ensures { result ≡ sum_of label.now }
{
    let mut sum = 0;
    for byte in label {
        sum = mix(sum, *byte);
    }
    sum
}

// A label and its checksum.
#[derive(Clone, Copy)]
pub(crate) struct Held<'t> {
    label: &'t [u8],
    sum: u32,
}

impl<'t> Held<'t> {
    // It is this label, with this checksum.
    fn is(&self, label: &[u8], sum: u32) -> bool
        ensures { result ≡ is_held label.now sum self.now }
    {
        self.sum == sum && self.label == label
    }
}

// The place of the first that is this label, or their number.
fn search(held: &[Held], label: &[u8], sum: u32) -> usize
    requires { length held.now ≤ 256 }
    ensures { result ≡ position_or_len (is_held label.now sum) held.now }
{
    held.iter()
        .position(|held| held.is(label, sum))
        .unwrap_or(held.len())
}

// The labels held. A hint is the number that a label of the same slot had last: it is tried first, and may be wrong.
#[derive(Drop)]
pub(crate) struct Labels<'t> {
    held: [Held<'t>; LABEL_ROOM],
    count: usize,
    hints: [u8; HINT_ROOM],
}

impl<'t> Model for Labels<'t> {
    ghost use Rattle.std.specs.Prelude.{ℕ, List, take};
    ghost use Rattle.aut.specs.Internal.Held.{labels_in, Holding};

    ghost Value = { List (List ℕ) };

    ghost view = { λ x. labels_in (take x.count x.held) };

    ghost invariant = { λ x. Holding x.held x.count };
}

impl<'t> Labels<'t> {
    pub(crate) fn new() -> Self
        ensures { result ≡ [] }
    {
        Labels {
            held: [Held { label: &[], sum: 0 }; LABEL_ROOM],
            count: 0,
            hints: [0; HINT_ROOM],
        }
    }

    pub(crate) fn len(&self) -> usize
        ensures { result ≡ length self.now }
    {
        self.count
    }

    // The number of a label, or how many are held where it is none of them.
    fn find(&self, label: &[u8], sum: u32, hint: usize) -> usize
        requires { sum ≡ sum_of label.now }
        ensures { result ≡ label_number label.now self.now }
    {
        if hint < self.count && self.held[hint].is(label, sum) {
            return hint;
        }
        search(&self.held[..self.count], label, sum)
    }

    // The number of a label, which is held from now on.
    pub(crate) fn number_of(&mut self, label: &'t [u8]) -> usize
        requires { length self.old < 256 }
        ensures number { result ≡ label_number label.now self.old }
        ensures after { self.new ≡ with_label label.now self.old }
    {
        let sum = checksum(label);
        let slot = sum as usize % HINT_ROOM;
        let number = self.find(label, sum, usize::from(self.hints[slot]));
        self.hints[slot] = number as u8;
        if number == self.count {
            self.held[number] = Held { label, sum };
            self.count += 1;
        }
        number
    }
}
