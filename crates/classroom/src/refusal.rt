// What the number that a call sends means.
use std::fmt;

#[derive(Clone, Copy, Debug, PartialEq, Eq)]
pub enum Refusal {
    BadNumber,
    NoRoom,
    NoMaterial,
    NoExtent,
    WrongList,
    BadTree,
    TooDeep,
    NoTree,
    AtLight,
    // A number that no call sends.
    Unknown,
}

// 0 says that a call is done, any other number why it is refused.
pub fn outcome(number: u32) -> Result<(), Refusal> {
    match number {
        0 => Ok(()),
        1 => Err(Refusal::BadNumber),
        2 => Err(Refusal::NoRoom),
        3 => Err(Refusal::NoMaterial),
        4 => Err(Refusal::NoExtent),
        5 => Err(Refusal::WrongList),
        6 => Err(Refusal::BadTree),
        7 => Err(Refusal::TooDeep),
        8 => Err(Refusal::NoTree),
        9 => Err(Refusal::AtLight),
        _ => Err(Refusal::Unknown),
    }
}

impl fmt::Display for Refusal {
    fn fmt<W: fmt::Write>(&self, f: &mut fmt::Formatter<W>) -> fmt::Result {
        f.write_str(match self {
            Refusal::BadNumber =>
                "refused: a number is not finite or outside its range, or a kind is unknown",
            Refusal::NoRoom => "refused: no room, or a table is short of its full size",
            Refusal::NoMaterial => "refused: the plan has no such material",
            Refusal::NoExtent => "refused: it has no extent",
            Refusal::WrongList => "refused: a plane among objects, or another kind among planes",
            Refusal::BadTree => "refused: the tree breaks a rule",
            Refusal::TooDeep => "refused: the tree would be 64 deep or deeper, and no tree stands",
            Refusal::NoTree => "refused: a tree is needed, and none stands for these pieces",
            Refusal::AtLight => "refused: the point lies in the middle of a lamp",
            Refusal::Unknown => "refused",
        })
    }
}
