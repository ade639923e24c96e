// Paths drawn by a seed. Most letters are such as can be followed; the reducer says which these are.
ghost use Rattle.std.specs.Prelude.{◌≤◌};

use crate::{Cell, Onward, Plan};

// A path's length, and the seed for what is drawn next.
#[derive(Clone, Copy)]
pub struct Drawn {
    pub length: usize,
    pub seed: usize,
}

// The next seed.
fn turn(seed: usize) -> usize {
    (seed % 2147483648 * 1103515245 + 12345) % 2147483648
}

// A number below n, or 0 if n is 0.
fn below(seed: usize, n: usize) -> usize
    ensures { result ≤ n }
{
    if n == 0 {
        return 0;
    }
    seed / 65536 % n
}

// How many letters a path has at most: up to 12, 80 or 800.
fn longest(seed: usize) -> usize {
    match below(seed, 8) {
        0 | 1 | 2 => below(turn(seed), 13),
        3 => below(turn(seed), 801),
        _ => below(turn(seed), 81),
    }
}

// One letter in how many of a path is any letter: 0 for none.
fn stray_rate(seed: usize) -> usize {
    match below(seed, 4) {
        0 => 8,
        1 => 60,
        _ => 0,
    }
}

// Any letter from 0 to 5, or 255.
fn stray(seed: usize) -> u8 {
    match below(seed, 7) {
        6 => 255,
        n => n as u8,
    }
}

// The next letter where a path can go on in these ways, or none to end it.
fn letter(ways: Onward, rate: usize, seed: usize) -> Option<u8> {
    let more = turn(seed);
    if 0 < rate && below(seed, rate) == 0 {
        return Some(stray(more));
    }
    match ways {
        Onward::Unfold => Some(0),
        Onward::Into(0) if below(seed, 4) == 0 => Some(stray(more)),
        Onward::Into(0) => None,
        Onward::Into(n) => u8::try_from(below(more, n)).ok()?.checked_add(1),
    }
}

// Puts bytes at a place of a file, as many as there is room for.
fn put(file: &mut [u8], at: usize, bytes: &[u8]) {
    for (place, byte) in file.iter_mut().skip(at).zip(bytes) {
        *place = *byte;
    }
}

// Makes these letters the path at an offset, the last record of a file; returns where the file then ends, or 0 where the offset is
// past every file or the letters are more than a path has.
pub fn set_path(file: &mut [u8], path: usize, letters: &[u8]) -> usize {
    if 60000 < path || 4096 < letters.len() {
        return 0;
    }
    let length = letters.len() as u16;
    put(file, path, &length.to_le_bytes());
    put(file, path + 4, letters);
    path + 4 + letters.len()
}

// Draws a path of a plan that is loaded.
pub fn draw(
    file: &[u8],
    plan: Plan,
    cells: &mut [Cell],
    first: usize,
    letters: &mut [u8],
) -> Drawn {
    let rate = stray_rate(first);
    let mut seed = turn(first);
    let most = longest(seed);
    seed = turn(turn(seed));
    let mut spot = Some(crate::start(cells));
    for i in 0..most {
        let ways = match spot {
            Some(at) => crate::ways(file, plan, cells, at),
            None => Onward::Into(0),
        };
        let next = letter(ways, rate, seed);
        seed = turn(turn(seed));
        let Some(next) = next else {
            return Drawn { length: i, seed };
        };
        if let Some(place) = letters.get_mut(i) {
            *place = next;
        }
        if let Some(at) = spot {
            spot = crate::step(file, plan, cells, at, usize::from(next)).ok();
        }
    }
    Drawn { length: most, seed }
}
