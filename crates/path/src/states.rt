// The states of a path by rank, the Rust's PathState. A path holds its rank, which in a lent one is any number: promotion is the larger rank, and Validated is
// the rank 4 itself.
ghost use Rattle.std.specs.Prelude.{◌≡◌};
ghost use Rattle.path.specs.Ranks.{rank};

#[derive(Clone, Copy, Debug, PartialEq, Eq, PartialOrd, Ord)]
pub enum PathState {
    Failed = 0,
    Unknown = 1,
    Validating = 2,
    ValidatingMtu = 3,
    Validated = 4,
}

impl From<PathState> for u8 {
    ghost from_gives = { λ s n. n ≡ rank s };

    fn from(s: PathState) -> u8 {
        s as u8
    }
}
