// A verdict and its visits in one number.
ghost use Rattle.std.specs.Prelude.{◌≡◌, ◌<◌, ◌≤◌};
ghost use Rattle.std.specs.Bool.{beq};
ghost use Rattle.sheet.specs.Bytes.{pick};
ghost use Rattle.judge.specs.Internal.Packed.{Added, verdict_in, visits_in, packed_limit};

// Twice the visits, and one more where the verdict is true. One number keeps the frames of the recursion small.
#[derive(Clone, Copy)]
pub(crate) struct Packed(pub(crate) u32);

impl Packed {
    // The verdicts with no visit.
    pub(crate) const FALSE: Packed = Packed(0);

    pub(crate) const TRUE: Packed = Packed(1);

    pub(crate) fn constant(verdict: bool) -> Packed
        ensures { (result.0 ≡ pick verdict 1 0) × (result.0 ≤ 1) }
    {
        if verdict { Packed::TRUE } else { Packed::FALSE }
    }

    pub(crate) fn is_true(self) -> bool
        ensures { result ≡ verdict_in self.0 }
    {
        self.0 % 2 == 1
    }

    pub(crate) fn visits(self) -> usize
        ensures { result ≡ visits_in self.0 }
    {
        (self.0 / 2) as usize
    }

    // The visits of both, the verdict of the second.
    pub(crate) fn then(self, second: Packed) -> Packed
        requires { (self.0 < packed_limit) × (second.0 < packed_limit) }
        ensures { Added self.0 second.0 result.0 }
    {
        Packed(self.0 / 2 * 2 + second.0)
    }

    // Whether the verdict decides an "or" (true) or an "and" (false).
    pub(crate) fn decides(self, or: bool) -> bool
        ensures { result ≡ beq (verdict_in self.0) or }
    {
        self.is_true() == or
    }
}
