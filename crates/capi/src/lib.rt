#![tactic(auto)]

// The judge for programs in other languages.
ghost use Rattle.std.specs.Prelude.{◌≡◌};
ghost use Rattle.capi.specs.Exports.{words_of, Judges};
ghost use Rattle.plan_check.specs.Verdicts.{answer_as};

use plan_check::{Verdict, judge};

// The number of a verdict, 0 proved, 1 unproved, 2 refuted, 3 refused, and its values, 0 where there are fewer than three. These are the
// numbers of the C interface, and no `From` stands for this function: neither the verdict nor an array is a type of this crate.
fn words_of(verdict: Verdict) -> [u64; 4]
    ensures { result ≡ words_of (answer_as verdict) }
{
    match verdict {
        Verdict::Proved {
            kept,
            total,
            rounds,
        } => [0, kept as u64, total as u64, rounds as u64],
        Verdict::Unproved {
            kept,
            total,
            rounds,
        } => [1, kept as u64, total as u64, rounds as u64],
        Verdict::Refuted {
            letters,
            state,
            constructor,
        } => [2, letters as u64, state as u64, constructor as u64],
        Verdict::Refused { number, place } => [3, number as u64, place as u64, 0],
    }
}

// Judges the bytes of a file with the flags that are lent. The number of the verdict is returned, and stands in `out`
// before its three values.
pub fn plan_judge(file: &[u8], flags: &mut [u8], out: &mut [u64; 4]) -> u64
    ensures { Judges file.now flags.old flags.new out.new result }
{
    let words = words_of(judge(file, flags));
    *out = words;
    words[0]
}
