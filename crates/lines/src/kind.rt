// A kind of change is a type: its arguments, its word and how many of a line's fields it fills.
ghost use Rattle.std.specs.Prelude.{◌≡◌, ℕ, List, codes};
ghost use Rattle.lines.specs.Meaning.{enter_of, clear_of, clash_of, lapse_of};
ghost use Rattle.lines.specs.declared.change.Change.{Change};
ghost use Rattle.lines.specs.declared.change.Change.TheVariants.{Enter as EnterChange, Clear as ClearChange, Clash as ClashChange, Lapse as LapseChange};

use super::change::{Change, ClashArguments, ClearArguments, EnterArguments, LapseArguments};

pub trait ChangeKind {
    type Arguments;

    const WORD: &'static [u8];

    const FILLED: usize;

    ghost spelled: { List ℕ };

    ghost FILLED: { ℕ };

    // the arguments from the numbers of the filled fields; those of the empty fields do not matter
    ghost built: { ℕ → ℕ → ℕ → Self.Arguments };

    ghost meant: { Self.Arguments → Change };

    // What the word is: a ghost member cannot say it of a constant that is a reference.
    fn spelling() -> &'static [u8]
        ensures { result.now ≡ spelled };

    fn filled_count() -> usize
        ensures { result ≡ FILLED }
    {
        Self::FILLED
    }

    fn build(a: u32, b: u32, c: u32) -> Self::Arguments
        ensures { result ≡ built a b c };

    fn change(arguments: Self::Arguments) -> Change
        ensures { result ≡ meant arguments };
}

pub struct Enter;

pub struct Clear;

pub struct Clash;

pub struct Lapse;

impl ChangeKind for Enter {
    type Arguments = EnterArguments;

    const WORD: &'static [u8] = b"enter";

    const FILLED: usize = 3;

    ghost spelled = { codes "enter" };

    ghost FILLED = { 3 };

    ghost built = { enter_of };

    ghost meant = { EnterChange };

    fn spelling() -> &'static [u8] {
        Self::WORD
    }

    fn build(a: u32, b: u32, c: u32) -> EnterArguments {
        EnterArguments {
            number: a,
            due: b,
            class: c,
        }
    }

    fn change(arguments: EnterArguments) -> Change {
        Change::Enter(arguments)
    }
}

impl ChangeKind for Clear {
    type Arguments = ClearArguments;

    const WORD: &'static [u8] = b"clear";

    const FILLED: usize = 1;

    ghost spelled = { codes "clear" };

    ghost FILLED = { 1 };

    ghost built = { clear_of };

    ghost meant = { ClearChange };

    fn spelling() -> &'static [u8] {
        Self::WORD
    }

    fn build(a: u32, b: u32, c: u32) -> ClearArguments {
        ClearArguments { lift: a }
    }

    fn change(arguments: ClearArguments) -> Change {
        Change::Clear(arguments)
    }
}

impl ChangeKind for Clash {
    type Arguments = ClashArguments;

    const WORD: &'static [u8] = b"clash";

    const FILLED: usize = 2;

    ghost spelled = { codes "clash" };

    ghost FILLED = { 2 };

    ghost built = { clash_of };

    ghost meant = { ClashChange };

    fn spelling() -> &'static [u8] {
        Self::WORD
    }

    fn build(a: u32, b: u32, c: u32) -> ClashArguments {
        ClashArguments {
            first: a,
            second: b,
        }
    }

    fn change(arguments: ClashArguments) -> Change {
        Change::Clash(arguments)
    }
}

impl ChangeKind for Lapse {
    type Arguments = LapseArguments;

    const WORD: &'static [u8] = b"lapse";

    const FILLED: usize = 2;

    ghost spelled = { codes "lapse" };

    ghost FILLED = { 2 };

    ghost built = { lapse_of };

    ghost meant = { LapseChange };

    fn spelling() -> &'static [u8] {
        Self::WORD
    }

    fn build(a: u32, b: u32, c: u32) -> LapseArguments {
        LapseArguments {
            first: a,
            second: b,
        }
    }

    fn change(arguments: LapseArguments) -> Change {
        Change::Lapse(arguments)
    }
}
