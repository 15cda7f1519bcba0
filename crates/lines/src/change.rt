// The four kinds of change, as a line gives them, each with a record of its own: the numbers may be too large for a board.
#[derive(Clone, Copy, PartialEq, Eq, Debug)]
pub struct EnterArguments {
    pub number: u32,
    pub due: u32,
    pub class: u32,
}

#[derive(Clone, Copy, PartialEq, Eq, Debug)]
pub struct ClearArguments {
    pub lift: u32,
}

#[derive(Clone, Copy, PartialEq, Eq, Debug)]
pub struct ClashArguments {
    pub first: u32,
    pub second: u32,
}

#[derive(Clone, Copy, PartialEq, Eq, Debug)]
pub struct LapseArguments {
    pub first: u32,
    pub second: u32,
}

#[derive(Clone, Copy, PartialEq, Eq, Debug)]
pub enum Change {
    Enter(EnterArguments),
    Clear(ClearArguments),
    Clash(ClashArguments),
    Lapse(LapseArguments),
}
