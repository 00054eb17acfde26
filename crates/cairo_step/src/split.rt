ghost use Rattle.std.specs.Prelude.{◌≡◌, ◌<◌};
ghost use Rattle.cairo_step.specs.Working.Parts.{split};
ghost use Rattle.cairo_step.specs.Working.Split.{split_of, offset_in, flag_in, is_allowed as allowed_test, are_choices as choices_test, jumps_alone as jumps_test, calls_alone as calls_test, apart as apart_test, one_of as one_test};

/// A word's offsets, with 2^15 added to them, and its flags.
#[derive(Drop)]
pub struct Parts {
    pub a0: u16,
    pub a1: u16,
    pub a2: u16,
    pub f0: bool,
    pub f1: bool,
    pub f2: bool,
    pub f3: bool,
    pub f4: bool,
    pub f5: bool,
    pub f6: bool,
    pub f7: bool,
    pub f8: bool,
    pub f9: bool,
    pub f10: bool,
    pub f11: bool,
    pub f12: bool,
    pub f13: bool,
    pub f14: bool,
}

impl Parts {
    pub fn of(word: u64) -> Parts
        ensures { split result ≡ split_of word }
    {
        Parts {
            a0: offset(word, 0),
            a1: offset(word, 16),
            a2: offset(word, 32),
            f0: flag(word, 48),
            f1: flag(word, 49),
            f2: flag(word, 50),
            f3: flag(word, 51),
            f4: flag(word, 52),
            f5: flag(word, 53),
            f6: flag(word, 54),
            f7: flag(word, 55),
            f8: flag(word, 56),
            f9: flag(word, 57),
            f10: flag(word, 58),
            f11: flag(word, 59),
            f12: flag(word, 60),
            f13: flag(word, 61),
            f14: flag(word, 62),
        }
    }

    /// Whether the flags exclude each other as they should.
    pub fn is_allowed(&self) -> bool
        ensures { result ≡ allowed_test (split self.now) }
    {
        self.are_choices() && self.jumps_alone() && self.calls_alone()
    }

    fn are_choices(&self) -> bool
        ensures { result ≡ choices_test (split self.now) }
    {
        one_of(self.f2, self.f3, self.f4)
            && apart(self.f5, self.f6)
            && one_of(self.f7, self.f8, self.f9)
            && apart(self.f10, self.f11)
            && one_of(self.f12, self.f13, self.f14)
    }

    fn jumps_alone(&self) -> bool
        ensures { result ≡ jumps_test (split self.now) }
    {
        !self.f9 || !(self.f5 || self.f6 || self.f12 || self.f13 || self.f14 || self.f10)
    }

    fn calls_alone(&self) -> bool
        ensures { result ≡ calls_test (split self.now) }
    {
        !self.f12 || !(self.f10 || self.f11)
    }
}

fn apart(a: bool, b: bool) -> bool
    ensures { result ≡ apart_test a b }
{
    !(a && b)
}

fn one_of(a: bool, b: bool, c: bool) -> bool
    ensures { result ≡ one_test a b c }
{
    !(a && (b || c)) && !(b && c)
}

fn offset(word: u64, place: u32) -> u16
    requires { place < 48 }
    ensures { result ≡ offset_in word place }
{
    (word >> place & 0xffff) as u16
}

fn flag(word: u64, place: u32) -> bool
    requires { place < 64 }
    ensures { result ≡ flag_in word place }
{
    word >> place & 1 == 1
}
