// What a call is turned back with (document 01, "Turned-back calls"): a number and a place, by what is wrong.
ghost use Rattle.std.specs.Prelude.{◌≡◌};
ghost use Rattle.design.specs.Refusal.{number_of, place_of};

// In the order of their numbers, from 1 on. Those without a place have place 0.
#[derive(Clone, Copy, Debug, PartialEq, Eq)]
pub enum Refused {
    Length(usize),
    Version(usize),
    Counts(usize),
    Offset(usize),
    Variable(usize),
    Matrix(usize),
    Cell(usize),
    Expression(usize),
    Action(usize),
    Movers(usize),
    Entry(usize),
    Choice(usize),
    Property,
    Bound,
    Part,
    Memory,
    Clauses(usize),
    Flags(usize),
    Variables,
    Owners,
}

impl Refused {
    // The number that the documents give it.
    pub fn number(self) -> u8
        ensures { result ≡ number_of self }
    {
        match self {
            Refused::Length(_) => 1,
            Refused::Version(_) => 2,
            Refused::Counts(_) => 3,
            Refused::Offset(_) => 4,
            Refused::Variable(_) => 5,
            Refused::Matrix(_) => 6,
            Refused::Cell(_) => 7,
            Refused::Expression(_) => 8,
            Refused::Action(_) => 9,
            Refused::Movers(_) => 10,
            Refused::Entry(_) => 11,
            Refused::Choice(_) => 12,
            Refused::Property => 13,
            Refused::Bound => 14,
            Refused::Part => 15,
            Refused::Memory => 16,
            Refused::Clauses(_) => 17,
            Refused::Flags(_) => 18,
            Refused::Variables => 19,
            Refused::Owners => 20,
        }
    }

    // The place.
    pub fn place(self) -> usize
        ensures { result ≡ place_of self }
    {
        match self {
            Refused::Length(place) => place,
            Refused::Version(place) => place,
            Refused::Counts(place) => place,
            Refused::Offset(place) => place,
            Refused::Variable(place) => place,
            Refused::Matrix(place) => place,
            Refused::Cell(place) => place,
            Refused::Expression(place) => place,
            Refused::Action(place) => place,
            Refused::Movers(place) => place,
            Refused::Entry(place) => place,
            Refused::Choice(place) => place,
            Refused::Clauses(place) => place,
            Refused::Flags(place) => place,
            Refused::Property
            | Refused::Bound
            | Refused::Part
            | Refused::Memory
            | Refused::Variables
            | Refused::Owners => 0,
        }
    }
}
