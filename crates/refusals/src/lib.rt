// Why a call cannot be done: the refusals of document 01 ('Who causes which refusal') and of document 02 by name, each with its number.
#![tactic(auto)]

ghost use Rattle.std.specs.Prelude.{◌≡◌};
ghost use Rattle.refusals.specs.Refusal.{number};

use std::fmt;

#[derive(Clone, Copy, Debug, PartialEq, Eq)]
pub enum Refusal {
    // The still.
    Magic = 1,
    Header = 2,
    Side = 3,
    Maximum = 4,
    RasterShort = 5,
    RasterLong = 6,

    // The recipe.
    StageCount = 10,
    Cut = 11,
    Trailing = 12,
    Kind = 13,
    Count = 14,
    Offset = 15,
    RealWeight = 16,
    Gain = 17,
    Position = 18,

    // The call.
    Channels = 19,
    Room = 20,

    // The program's files.
    FileLong = 21,
    FileUnread = 22,

    // The background.
    StillNumber = 23,
    StillSize = 24,
    BackgroundFull = 25,

    // The movement between two stills.
    SizesDiffer = 26,
    MovementLimit = 27,

    // A caller's limits.
    StageLimit = 28,
    SampleLimit = 29,

    // A verdict.
    VerdictStage = 30,
    ReceivedSize = 31,
    DistanceLimit = 32,
}

// The refusal's number.
impl From<Refusal> for u8 {
    ghost from_gives = { λ refusal n. n ≡ number refusal };

    fn from(refusal: Refusal) -> u8 {
        refusal as u8
    }
}

// `no` and the number, as the programs print it.
impl fmt::Display for Refusal {
    fn fmt<W: fmt::Write>(&self, f: &mut fmt::Formatter<W>) -> fmt::Result {
        write!(f, "no {}", u8::from(*self))
    }
}
