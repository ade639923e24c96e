// The head of a node of a body.
ghost use Rattle.std.specs.Prelude.{◌≡◌, ◌+◌, ◌<◌};
ghost use Rattle.casefile.specs.Fields.{byte, word};
ghost use Rattle.closures.specs.closures.Nodes.{head_by};
ghost use Rattle.closures.specs.heads.Heads.{head_as};
ghost use Rattle.index.specs.layout.Layout.{place_units};

use records::fields::{byte_at, word_at};

// A constructor, a nonterminal or a parameter, by its number.
#[derive(Clone, Copy, PartialEq, Eq)]
pub enum Head {
    Constructor(usize),
    Nonterminal(usize),
    Parameter(usize),
}

// The head of the node at a place of the file.
pub(crate) fn head_at(file: &[u8], at: usize) -> Head
    requires { at < place_units }
    ensures { head_as result ≡ head_by (byte file.now at) (word file.now (at + 1)) }
{
    match byte_at(file, at) {
        0 => Head::Constructor(word_at(file, at + 1)),
        1 => Head::Nonterminal(word_at(file, at + 1)),
        _ => Head::Parameter(word_at(file, at + 1)),
    }
}
