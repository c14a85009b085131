// Record lines: "Kind, length, literals." The caller has tested the room.
#![tactic(auto)]

ghost use Rattle.std.specs.Prelude.{◌≡◌, Bool, List, [], ◌∷◌, ℕ, ◌+◌, ◌≤◌, ◌<◌, ◌^◌, length};
ghost use Rattle.std.proofs.lemmas.List.Edits.{sets};
ghost use Rattle.laws.specs.Lists.{read_n};
ghost use Rattle.kinds.specs.Clauses.{len_at, lits_at, end_at, original_at};
ghost use Rattle.kinds.specs.Lines.{line, line_words, strike_kind, entry_kind};

// "A redundant clause is always struck as 4"
pub fn strike_kind(original: bool, kind: u32) -> u32
    ensures { result ≡ strike_kind original kind }
{
    if original { kind } else { 4 }
}

// "a binary form is always entered as 2"
pub fn entry_kind(original: bool, n: usize) -> u32
    ensures { result ≡ entry_kind original n }
{
    if original || n == 2 { 2 } else { 3 }
}

// A line with n literals, those of `words` from `start` on, behind the used part. Returns the new used length.
pub fn append(
    rec: &mut [u32],
    used: usize,
    kind: u32,
    words: &[u32],
    start: usize,
    n: usize,
) -> usize
    requires { (used + (n + 2) ≤ length rec.old) × (start + n ≤ length words.now) × (n < 2 ^ 32) }
    ensures { (result ≡ used + (n + 2)) × (rec.new ≡ sets rec.old used (line_words (line kind (read_n words.now start n)))) }
{
    rec[used] = kind;
    rec[used + 1] = n as u32;
    buffers::copy(rec, used + 2, words, start, n);
    used + (n + 2)
}

// The line that strikes the clause at an offset; `kind` is the kind if it is an original.
pub fn strike(words: &[u32], offset: usize, rec: &mut [u32], used: usize, kind: u32) -> usize
    requires { (end_at words.now offset ≤ length words.now) × (used + (len_at words.now offset + 2) ≤ length rec.old) }
    ensures { (result ≡ used + (len_at words.now offset + 2))
        × (rec.new ≡ sets rec.old used (line_words (line (strike_kind (original_at words.now offset) kind) (lits_at words.now offset)))) }
{
    let original = header::tier_of(words[offset + 1]) == 0;
    let n = words[offset + 2] as usize;
    append(rec, used, strike_kind(original, kind), words, offset + 3, n)
}

// The line that strikes the satisfied binary clause {a, b}.
pub fn strike_pair(rec: &mut [u32], used: usize, a: u32, b: u32) -> usize
    requires { used + 4 ≤ length rec.old }
    ensures { (result ≡ used + 4) × (rec.new ≡ sets rec.old used (line_words (line 5 (a ∷ b ∷ [])))) }
{
    rec[used..used + 4].copy_from_slice(&[5, 2, a, b]);
    used + 4
}
