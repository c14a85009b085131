// Numbers met, as binary digits, 64 to a word. The laws of a small sieve of flags stand in proofs/Flagging.antt.
#![tactic(auto)]

ghost use Rattle.std.specs.Prelude.{◌≡◌, ◌/◌, ◌<◌, length};
ghost use Rattle.sieve.specs.Digits.{digit, Added, has, Put};

// The digit of x is set.
#[tactic(auto, unfolding(crate::specs::Digits::digit))]
fn met(word: u64, x: u32) -> bool
    ensures { result ≡ digit word x }
{
    (word >> (x % 64)) & 1 != 0
}

// The word with the digit of x set.
fn with_digit(word: u64, x: u32) -> u64
    ensures { Added word x result }
{
    word | (1 << (x % 64))
}

// x is put into the set; true where it was there.
pub fn mark(seen: &mut [u64], x: u32) -> bool
    requires { x / 64 < length seen.old }
    ensures { (result ≡ has seen.old x) × Put seen.old x seen.new }
{
    let place = (x / 64) as usize;
    let word = seen[place];
    seen[place] = with_digit(word, x);
    met(word, x)
}
