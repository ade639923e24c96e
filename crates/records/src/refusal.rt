// Why a file is refused, and where.
ghost use Rattle.std.specs.Prelude.{◌≡◌};
ghost use Rattle.records.specs.refusal.Numbers.{number_of};

// The tests that a file may fail, in the order of their numbers.
#[derive(Clone, Copy, PartialEq, Eq)]
pub enum Fault {
    TooLong,
    CutOff,
    WrongKind,
    WrongLength,
    OverLimit,
    OutOfRange,
    Misplaced,
    Incomplete,
    WrongBody,
    MixedEvidence,
    Misfit,
    FewFlags,
    Lost,
    TooLarge,
    NotStuck,
}

// A test that a file fails, and the place where it does.
#[derive(Clone, Copy, PartialEq, Eq)]
pub struct Refusal {
    pub fault: Fault,
    pub place: usize,
}

impl Fault {
    // The refusal of a file that fails this test at a place.
    pub fn at(self, place: usize) -> Refusal
        ensures { result ≡ record { fault = self; place = place } }
    {
        Refusal { fault: self, place }
    }
}

// The number of a test, from 1 to 15.
impl From<Fault> for usize {
    ghost from_gives = { λ fault number. number ≡ number_of fault };

    fn from(fault: Fault) -> usize {
        match fault {
            Fault::TooLong => 1,
            Fault::CutOff => 2,
            Fault::WrongKind => 3,
            Fault::WrongLength => 4,
            Fault::OverLimit => 5,
            Fault::OutOfRange => 6,
            Fault::Misplaced => 7,
            Fault::Incomplete => 8,
            Fault::WrongBody => 9,
            Fault::MixedEvidence => 10,
            Fault::Misfit => 11,
            Fault::FewFlags => 12,
            Fault::Lost => 13,
            Fault::TooLarge => 14,
            Fault::NotStuck => 15,
        }
    }
}
