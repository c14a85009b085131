// Reading, writing, copying and clearing in lent buffers.
#![tactic(auto)]

ghost use Rattle.std.specs.Prelude.{◌≡◌, ℕ, ◌+◌, ◌-◌, ◌≤◌, ◌<◌, ◌^◌, length, set, replicate};
ghost use Rattle.std.proofs.lemmas.List.Edits.{sets};
ghost use Rattle.laws.specs.Lists.{at, read_n};

// Word k as a usize, with its range; `byte` is the same of bytes: a bound over both would say the range by a ghost member, and each caller would look it up there.
pub fn word(words: &[u32], k: usize) -> usize
    requires { k < length words.now }
    ensures { (result ≡ at words.now k) × (result < 2 ^ 32) }
{
    words[k] as usize
}

// Byte k as a usize.
pub fn byte(bytes: &[u8], k: usize) -> usize
    requires { k < length bytes.now }
    ensures { (result ≡ at bytes.now k) × (result < 256) }
{
    bytes[k] as usize
}

pub fn put(words: &mut [u32], k: usize, x: usize)
    requires { (k < length words.old) × (x < 2 ^ 32) }
    ensures { words.new ≡ set words.old k x }
{
    words[k] = x as u32;
}

// 0 in each number from `from` up to, not including, `to`.
pub fn clear(words: &mut [u32], from: usize, to: usize)
    requires { (from ≤ to) × (to ≤ length words.old) }
    ensures { words.new ≡ sets words.old from (replicate (to - from) 0) }
{
    words[from..to].fill(0);
}

// n numbers of `from`, from `start` on, over those of `to` from `place` on. Number by number: `copy_from_slice` would want `memmove` of whoever links the static library.
pub fn copy(to: &mut [u32], place: usize, from: &[u32], start: usize, n: usize)
    requires { (place + n ≤ length to.old) × (start + n ≤ length from.now) }
    ensures { to.new ≡ sets to.old place (read_n from.now start n) }
{
    for i in 0..n {
        to[place + i] = from[start + i];
    }
}

// n numbers moved down inside one buffer; the two places may overlap.
pub fn move_down(words: &mut [u32], from: usize, to: usize, n: usize)
    requires { (to ≤ from) × (from + n ≤ length words.old) }
    ensures { words.new ≡ sets words.old to (read_n words.old from n) }
{
    words.copy_within(from..from + n, to);
}
