// The kinds of records.
ghost use Rattle.std.specs.Prelude.{◌≡◌};
ghost use Rattle.records.specs.kind.Kinds.{Decodes, kind_number};

use crate::refusal::Fault;

// The nine kinds, in the order of their numbers.
#[derive(Clone, Copy, PartialEq, Eq)]
pub enum Kind {
    Sort,
    Constructor,
    Nonterminal,
    Rule,
    States,
    Transition,
    Type,
    Binding,
    Path,
}

// The number of a kind, from 1 to 9.
impl From<Kind> for usize {
    ghost from_gives = { λ kind number. number ≡ kind_number kind };

    fn from(kind: Kind) -> usize {
        match kind {
            Kind::Sort => 1,
            Kind::Constructor => 2,
            Kind::Nonterminal => 3,
            Kind::Rule => 4,
            Kind::States => 5,
            Kind::Transition => 6,
            Kind::Type => 7,
            Kind::Binding => 8,
            Kind::Path => 9,
        }
    }
}

// The kind with a number; a fault where no kind has it.
impl TryFrom<usize> for Kind {
    type Error = Fault;

    ghost try_from_gives = { Decodes };

    #[tactic(auto, unfolding(casefile::specs::Kinds::kind_of))]
    fn try_from(number: usize) -> Result<Kind, Fault> {
        match number {
            1 => Ok(Kind::Sort),
            2 => Ok(Kind::Constructor),
            3 => Ok(Kind::Nonterminal),
            4 => Ok(Kind::Rule),
            5 => Ok(Kind::States),
            6 => Ok(Kind::Transition),
            7 => Ok(Kind::Type),
            8 => Ok(Kind::Binding),
            9 => Ok(Kind::Path),
            _ => Err(Fault::WrongKind),
        }
    }
}
