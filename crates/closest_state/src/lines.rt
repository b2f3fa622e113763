// The lines that the program writes, put together in a buffer.
ghost use Rattle.std.specs.Prelude.{◌≤◌, length};
ghost use Rattle.text.specs.Placing.{Puts};
ghost use Rattle.closest_state.specs.Text.{fails_line, holds_line, first_length};
ghost use Rattle.closest_state.specs.Internal.Lines.{lines_of, LinesRequire, PutsAt};

use closest::Failing;
use text::Writer;

// Room for a first line, whatever its numbers: `fails`, three numbers of at most 20 digits, three spaces and the line feed.
pub(crate) const FIRST_LENGTH: usize = 69;

// Room for the line of a transition: three numbers of at most 20 digits, two spaces and the line feed.
pub(crate) const LINE_LENGTH: usize = 63;

pub(crate) fn put_fails(found: Failing, visits: usize, out: &mut [u8]) -> usize
    requires { first_length ≤ length out.old }
    ensures { Puts (fails_line found.state.0 found.steps visits) result out.old out.new }
{
    let mut line = Writer::new(out);
    line.put(b"fails ");
    line.put_decimal(found.state.0 as u64);
    line.put(b" ");
    line.put_decimal(found.steps as u64);
    line.put(b" ");
    line.put_decimal(visits as u64);
    line.put(b"\n");
    line.place
}

pub(crate) fn put_holds(visits: usize, out: &mut [u8]) -> usize
    requires { first_length ≤ length out.old }
    ensures { Puts (holds_line visits) result out.old out.new }
{
    let mut line = Writer::new(out);
    line.put(b"holds ");
    line.put_decimal(visits as u64);
    line.put(b"\n");
    line.place
}

// The lines of so many transitions, three bytes each, from place at of out on. By index, since the way's buffer is longer than the way.
pub(crate) fn put_way(way: &[u8], count: usize, at: usize, out: &mut [u8]) -> usize
    requires { LinesRequire way.now count at out.old }
    ensures { PutsAt (lines_of way.now count) at out.old result out.new }
{
    let mut lines = Writer::at(at, out);
    for i in 0..count {
        lines.put_decimal(way[3 * i] as u64);
        lines.put(b" ");
        lines.put_decimal(way[3 * i + 1] as u64);
        lines.put(b" ");
        lines.put_decimal(way[3 * i + 2] as u64);
        lines.put(b"\n");
    }
    lines.place
}
