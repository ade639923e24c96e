#![tactic(auto)]

// The judge for programs in other languages: the symbols of the archive, with the promises of the library's functions.
ghost use Rattle.capi.specs.Exports.{Judges};

// Judges the bytes of a file with the flags that are lent. The number of the verdict is returned, and stands in `out`
// before its three values.
#[unsafe(no_mangle)]
pub extern "C" fn plan_judge(file: &[u8], flags: &mut [u8], out: &mut [u64; 4]) -> u64
    ensures { Judges file.now flags.old flags.new out.new result }
{
    capi::plan_judge(file, flags, out)
}
