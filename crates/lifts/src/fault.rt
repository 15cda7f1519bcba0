// What refuses a call, where, and about which lift.
ghost use Rattle.std.specs.Prelude.{◌≡◌, Some};
ghost use Rattle.lifts.specs.Faults.{about, fault_text, without_lift};
ghost use Rattle.lifts.specs.Numbers.{refusal_number};

use std::error::Error;
use std::fmt;

// Each case has its number in the files and on the rows: `refusal_number` in specs/ fixes it.
#[derive(Clone, Copy, PartialEq, Eq, Debug)]
pub enum Refusal {
    ThresholdOutOfRange = 1,
    TooLittleMemory = 2,
    NumberTooLarge = 3,
    AlreadyOnBoard = 4,
    NotOnBoard = 5,
    SameLiftTwice = 6,
    ClashStands = 7,
    NoSuchClash = 8,
    DueOrClassTooLarge = 9,
    GraphFull = 10,
    ChangeLimitReached = 11,
    ListFull = 12,
    TextFull = 13,
    MalformedLine = 14,
    LineNumberOutOfRange = 15,
}

impl From<Refusal> for u32 {
    ghost from_gives = { λ refusal number. number ≡ refusal_number refusal };

    fn from(refusal: Refusal) -> u32 {
        refusal as u32
    }
}

impl Refusal {
    pub fn number(self) -> u32
        ensures { result ≡ refusal_number self }
    {
        u32::from(self)
    }
}

// Whose call refused: setting up, reading and writing text, the board, or its conflict graph.
#[derive(Clone, Copy, PartialEq, Eq, Debug)]
pub enum Layer {
    Setup,
    File,
    Board,
    Book,
}

// `lift` is the number that the refusal is about, which may be too large for a lift.
#[derive(Clone, Copy, PartialEq, Eq, Debug)]
pub struct Fault {
    pub refusal: Refusal,
    pub layer: Layer,
    pub lift: Option<u32>,
}

impl Fault {
    pub fn about(refusal: Refusal, layer: Layer, lift: u32) -> Fault
        ensures { result ≡ about refusal layer lift }
    {
        Fault {
            refusal,
            layer,
            lift: Some(lift),
        }
    }

    pub fn without_lift(refusal: Refusal, layer: Layer) -> Fault
        ensures { result ≡ without_lift refusal layer }
    {
        Fault {
            refusal,
            layer,
            lift: None,
        }
    }
}

// `refused` with the number, and the lift if there is one.
impl fmt::Display for Fault {
    ghost output = { λ fault. Some (fault_text fault) };

    fn fmt<W: fmt::Write>(&self, f: &mut fmt::Formatter<W>) -> fmt::Result {
        let number = u32::from(self.refusal);
        match self.lift {
            Some(lift) => write!(f, "refused {number}, lift {lift}"),
            None => write!(f, "refused {number}"),
        }
    }
}

impl Error for Fault {}
