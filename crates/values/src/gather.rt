// Many values tested at once, without a branch: what is gathered of them is nothing exactly where each of them is.
ghost use Rattle.std.specs.Prelude.{◌≡◌, Bool, true, ◌&&◌};
ghost use Rattle.lists.specs.Defs.{all, nought, past};

pub trait Gather: Copy {
    // The values that are nothing.
    ghost is_nothing: { Self → Bool };

    fn nothing() -> Self
        ensures { is_nothing result ≡ true };

    fn gather(self, other: Self) -> Self
        ensures { is_nothing result ≡ (is_nothing self && is_nothing other) };

    fn is_none(self) -> bool
        ensures { result ≡ is_nothing self };
}

impl Gather for u8 {
    ghost is_nothing = { nought };

    fn nothing() -> u8 {
        0
    }

    fn gather(self, other: u8) -> u8 {
        self | other
    }

    fn is_none(self) -> bool {
        self == 0
    }
}

impl Gather for u64 {
    ghost is_nothing = { nought };

    fn nothing() -> u64 {
        0
    }

    fn gather(self, other: u64) -> u64 {
        self | other
    }

    fn is_none(self) -> bool {
        self == 0
    }
}

impl<T: Gather, const N: usize> Gather for [T; N] {
    ghost is_nothing = { past T.is_nothing N 0 };

    fn nothing() -> [T; N] {
        [T::nothing(); N]
    }

    fn gather(self, other: [T; N]) -> [T; N] {
        let mut both = self;
        for i in 0..N {
            both[i] = both[i].gather(other[i]);
        }
        both
    }

    fn is_none(self) -> bool {
        all_nothing(&self)
    }
}

pub fn all_nothing<T: Gather>(items: &[T]) -> bool
    ensures { result ≡ all T.is_nothing items.now }
{
    let mut sum = T::nothing();
    for x in items {
        sum = sum.gather(*x);
    }
    sum.is_none()
}
