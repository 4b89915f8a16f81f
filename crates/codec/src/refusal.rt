// Refusals, their numbers, and their places.
ghost use Rattle.std.specs.Prelude.{◌≡◌};
ghost use Rattle.codec.specs.Refusals.{number_of, lane_of, operand_of, role_number};

// Which operand of a calculation: in the order in which they are looked at.
#[derive(Clone, Copy, Debug, PartialEq, Eq)]
pub enum Role {
    First,
    Second,
    Destination,
}

impl Role {
    // The operand's number: 0 for the first source, 1 for the second, 2 for the destination.
    pub fn number(self) -> u64
        ensures { result ≡ role_number self }
    {
        match self {
            Role::First => 0,
            Role::Second => 1,
            Role::Destination => 2,
        }
    }
}

// Why an operation, a calculation, a sheet or a nest is refused: document 01's table, in its order, then document 02's.
#[derive(Clone, Copy, Debug, PartialEq, Eq)]
pub enum Refusal {
    // 1: a number is cut off, too long or not shortest
    BadNumber,
    // 2: unknown operation, a field out of range, bytes after run or after a nest
    OutOfRange,
    // 3: header word breaks the fixed bits
    FixedBits,
    // 4: m or inds set
    NotCarried,
    // 5: register in the wrong state
    WrongState,
    // 6: an eighth dimension or ninth modifier
    TooMany,
    // 7: modifier with no dimension yet or target not below its owner; end with no dimension; coupled dimension missing
    Misplaced,
    // 8: low or high rule
    LowHigh,
    // 9: product rule
    Product,
    // 10: load stream as destination, store stream as source
    WrongKind,
    // 11: finished register in a calculation
    StreamEnded,
    // 12: widths differ
    Widths,
    // 13: lanes differ, or exceed the store chunk
    LaneCounts,
    // 14: element outside memory; the first lane outside, counted from 0, and the operand at fault
    Outside(usize, Role),
    // 15: vector length or memory length not allowed
    Lengths,
    // 16: loop register is no open or finished load stream, or no calculation names it as a source
    LoopRegister,
    // 17: no room for the translated sheet
    NoRoom,
    // 18: no lanes for smallest, largest or first largest
    NoLanes,
}

// A refusal with its place: where in the sheet or the nest it stands.
#[derive(Clone, Copy, Debug, PartialEq, Eq)]
pub struct Refused {
    pub refusal: Refusal,
    pub place: usize,
}

impl Refusal {
    // The refusal's number in document 01's table.
    pub fn number(self) -> u64
        ensures { result ≡ number_of self }
    {
        match self {
            Refusal::BadNumber => 1,
            Refusal::OutOfRange => 2,
            Refusal::FixedBits => 3,
            Refusal::NotCarried => 4,
            Refusal::WrongState => 5,
            Refusal::TooMany => 6,
            Refusal::Misplaced => 7,
            Refusal::LowHigh => 8,
            Refusal::Product => 9,
            Refusal::WrongKind => 10,
            Refusal::StreamEnded => 11,
            Refusal::Widths => 12,
            Refusal::LaneCounts => 13,
            Refusal::Outside(..) => 14,
            Refusal::Lengths => 15,
            Refusal::LoopRegister => 16,
            Refusal::NoRoom => 17,
            Refusal::NoLanes => 18,
        }
    }

    // The lane that 14 names; 0 of any other refusal.
    pub fn lane(self) -> u64
        ensures { result ≡ lane_of self }
    {
        match self {
            Refusal::Outside(lane, _) => lane as u64,
            _ => 0,
        }
    }

    // The number of the operand that 14 names; 0 of any other refusal.
    pub fn operand(self) -> u64
        ensures { result ≡ operand_of self }
    {
        match self {
            Refusal::Outside(_, role) => role.number(),
            _ => 0,
        }
    }
}
