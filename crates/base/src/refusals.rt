// Why a call is refused (docs/SCOPE.md, section 4.1): each refusal has a number, which C and the listing program are told.
ghost use Rattle.std.specs.Prelude.{◌≡◌};
ghost use Rattle.base.specs.Refusals.{number_of};

#[derive(Clone, Copy, Debug, PartialEq, Eq)]
pub enum Refusal {
    BadSizes = 1,
    CutOff,
    Misplaced,
    Unfinished,
    BadName,
    NameOrder,
    TooMany,
    BadClass,
    BadRow,
    TreeTooLarge,
    BadState,
    BadNumbering,
    OutputTooShort,
    BadPlan,
    TooDeep,
    UnknownChild,
}

// Its number.
impl From<Refusal> for u8 {
    ghost from_gives = { λ refusal number. number ≡ number_of refusal };

    fn from(refusal: Refusal) -> u8 {
        refusal as u8
    }
}
