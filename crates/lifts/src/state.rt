// Where a lift stands.
ghost use Rattle.std.specs.Prelude.{◌≡◌};
ghost use Rattle.lifts.specs.Numbers.{state_number};

#[derive(Clone, Copy, PartialEq, Eq, Debug)]
pub enum State {
    Released = 1,
    Held = 2,
    Off = 3,
}

impl From<State> for u32 {
    ghost from_gives = { λ state number. number ≡ state_number state };

    fn from(state: State) -> u32 {
        state as u32
    }
}

impl State {
    pub fn number(self) -> u32
        ensures { result ≡ state_number self }
    {
        u32::from(self)
    }
}
