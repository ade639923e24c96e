// The bodies of rules one after another: the first that does not fit, and the ends of subterms.
ghost use Rattle.std.specs.Prelude.{◌<◌, IfSome};
ghost use Rattle.rules.specs.reading.RuleBodies.{RuleRead, ReadsRules};

use bodies::Heads;
use index::entries::place_at;
use index::layout::{LAST_NONTERMINAL, MAX_BODY, NODE, RULES_AT, Rows};
use records::cursor::payload;
use records::fields::length_at;

// The number of nodes of rule f where its body fits; `ends` gets the ends of its subterms.
// `codes` and `depths` are tables to work in: what they hold does not matter, before or after.
fn read_rule(
    file: &[u8],
    index: &[u16],
    heads: Heads,
    f: usize,
    ends: &mut [u16],
    codes: &mut Rows,
    depths: &mut Rows,
) -> Option<usize>
    ensures { RuleRead file.now index.now heads.entry f ends.old ends.new result }
{
    if LAST_NONTERMINAL < f {
        return None;
    }
    let place = place_at(index, RULES_AT + f);
    let len = length_at(file, place);
    if MAX_BODY < len {
        return None;
    }
    if ends.len() < len / NODE {
        return None;
    }
    let p = payload(file, place, len);
    let own = place_at(heads.signatures, f);
    if !heads.body_fits(p, own, ends, codes, depths) {
        return None;
    }
    Some(len / NODE)
}

// The number of the first rule whose body does not fit; none where all fit, and then `ends` has the ends of subterms, rule after rule.
// `codes` and `depths` are tables to work in: what they hold does not matter, before or after.
pub(crate) fn read_rules(
    file: &[u8],
    index: &[u16],
    heads: Heads,
    rules: usize,
    ends: &mut [u16],
    codes: &mut Rows,
    depths: &mut Rows,
) -> Option<usize>
    ensures within { IfSome result (λ f. f < rules) }
    ensures first { ReadsRules file.now index.now heads.entry rules ends.old ends.new result }
{
    let mut at: usize = 0;
    for f in 0..rules {
        let Some(n) = read_rule(file, index, heads, f, &mut ends[at..], codes, depths) else {
            return Some(f);
        };
        at += n;
    }
    None
}
