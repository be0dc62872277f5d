// The ten acts on the lent store.
#![tactic(auto)]

pub mod ask;
pub mod events;
pub mod finds;
pub mod reads;
pub mod settle;
pub mod start;

use stretches::stretch::NoObject;

// Why an act is refused, in the order of document 01's numbers. A port that stands against retiring is named.
#[derive(Clone, Copy, Debug, PartialEq, Eq)]
pub enum Refusal {
    NotWellFormed,
    NoSuchAct,
    NoSuchPort,
    NoSuchObject,
    NotInUse,
    SamePort,
    NotHeld,
    HoldingFull,
    LaneEmpty,
    PointersFull,
    ReportsFull,
    AllInUse,
    StandsAgainst(u32),
    WouldBreak,
}

// A number that is no object's is refused as one.
impl From<NoObject> for Refusal {
    ghost use Rattle.std.specs.Prelude.{◌≡◌};
    ghost use Rattle.acts.specs.declared.Refusal.TheVariants.{NoSuchObject};

    ghost from_gives = { λ _ r. r ≡ NoSuchObject };

    fn from(_: NoObject) -> Refusal {
        Refusal::NoSuchObject
    }
}
