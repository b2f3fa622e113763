// The writer: three bodies become one sheet in a lent buffer.
ghost use Rattle.std.specs.Prelude.{◌≡◌, [], ◌+◌, ◌≤◌, ◌++◌, length, drop};
ghost use Rattle.std.proofs.Math.Seq.{paste};
ghost use Rattle.sheet.specs.Writing.{two_bytes, head, sheet_of, sheet_length};
ghost use Rattle.sheet.specs.RunningCalls.{Writes};
ghost use Rattle.sheet.specs.Internal.Room.{Room};

use crate::body_check::check_bodies;
use crate::{HEAD_LENGTH, Refusal};

// A number modulo 65,536 as two bytes, the low byte first.
fn low_first(n: usize) -> [u8; 2]
    ensures { result ≡ two_bytes n [] }
{
    [(n % 256) as u8, (n / 256 % 256) as u8]
}

// The first 17 bytes of a sheet whose bodies have these lengths. An offset is written modulo 65,536; in a sheet none is so large.
pub fn head_of(plan: u16, actions: u16, rule: u16) -> [u8; 17]
    ensures { result ≡ head plan actions rule }
{
    let second = HEAD_LENGTH + usize::from(plan);
    let third = second + usize::from(actions);
    let [p, p_high] = low_first(usize::from(plan));
    let [s, s_high] = low_first(second);
    let [a, a_high] = low_first(usize::from(actions));
    let [t, t_high] = low_first(third);
    let [r, r_high] = low_first(usize::from(rule));
    [
        1, 3, 1, 17, 0, p, p_high, 2, s, s_high, a, a_high, 3, t, t_high, r, r_high,
    ]
}

// The bytes of src, put into out from a place on.
fn copy_at(out: &mut [u8], at: usize, src: &[u8])
    requires { at + length src.now ≤ length out.old }
    ensures { out.new ≡ paste out.old at src.now (length src.now) }
{
    out[at..at + src.len()].copy_from_slice(src);
}

// The sheet of three bodies, at the front of an output that has room for it.
fn put_sheet(p: &[u8], a: &[u8], r: &[u8], out: &mut [u8])
    requires { Room p.now a.now r.now out.old }
    ensures { out.new ≡ sheet_of p.now a.now r.now ++ drop (sheet_length p.now a.now r.now) out.old }
{
    let head = head_of(p.len() as u16, a.len() as u16, r.len() as u16);
    copy_at(out, 0, &head);
    copy_at(out, HEAD_LENGTH, p);
    copy_at(out, HEAD_LENGTH + p.len(), a);
    copy_at(out, HEAD_LENGTH + p.len() + a.len(), r);
}

// The sheet of three bodies, at the front of out, and its length; or the refusal, with out unchanged.
pub fn write(plan: &[u8], actions: &[u8], rule: &[u8], out: &mut [u8]) -> Result<usize, Refusal>
    ensures { Writes plan.now actions.now rule.now out.old result out.new }
{
    check_bodies(plan, actions, rule)?;
    let length = HEAD_LENGTH + plan.len() + actions.len() + rule.len();
    if out.len() < length {
        return Err(Refusal::OutputShort);
    }
    put_sheet(plan, actions, rule, out);
    Ok(length)
}
