// The codes of sorts: of the sorts that a file lists, and of those of constructors.
// A code is a number and no enum, since the tables of a body, which are lent, hold codes in two bytes.
ghost use Rattle.std.specs.Prelude.{◌≡◌, ◌&&◌, eqb, get_or, length, List};
ghost use Rattle.sorts.specs.codes.Sorted.{SortArrays, TreeCodes, ArrowTo, NextTree};
ghost use Rattle.scheme.specs.Sorts.{Sort};

use index::entries::place_at;
use index::layout::MAX_ARITY;

// The sorts that a file lists, by their numbers: sort 0 is o, any other sort i goes from sort froms[i] to sort tos[i].
#[derive(Clone, Copy)]
pub struct Sorts<'a> {
    pub froms: &'a [u16],
    pub tos: &'a [u16],
}

impl<'a> Sorts<'a> {
    // Is sort i from o to sort `to`?
    fn is_arrow(self, i: usize, to: usize) -> bool
        ensures { result ≡ (eqb (get_or self.entry.froms.now i 0) 0 && eqb (get_or self.entry.tos.now i 0) to) }
    {
        place_at(self.froms, i) == 0 && place_at(self.tos, i) == to
    }

    // The number of the sort from o to sort `to`, where one of the n sorts is it.
    fn arrow_to(self, n: usize, to: usize) -> Option<usize>
        ensures { ArrowTo self.entry n to result }
    {
        for i in 1..n {
            if self.is_arrow(i, to) {
                return Some(i);
            }
        }
        None
    }

    // The code of the sort of constructors with one argument more than those of sort `code`; `other` where it is not listed.
    fn next_tree(self, n: usize, code: u16, other: u16) -> u16
        ensures { NextTree self.entry n code other result }
    {
        if 1000 <= code {
            return other;
        }
        match self.arrow_to(n, code as usize) {
            Some(i) => u16::try_from(i).unwrap_or(other),
            None => other,
        }
    }

    // The codes of the sorts of constructors with 0 to 4 arguments, where there are n sorts.
    pub fn tree_codes(self, n: usize) -> [u16; MAX_ARITY + 1]
        ensures { (sorts : List Sort) → SortArrays sorts self.entry → n ≡ length sorts → TreeCodes sorts result }
    {
        let one = self.next_tree(n, 0, 1001);
        let two = self.next_tree(n, one, 1002);
        let three = self.next_tree(n, two, 1003);
        let four = self.next_tree(n, three, 1004);
        [0, one, two, three, four]
    }
}
