// Clause words: alloc.rs.
#![tactic(auto)]

ghost use Rattle.std.specs.Prelude.{◌≡◌, ℕ, ◌+◌, ◌≤◌, ◌<◌, ◌^◌, length};
ghost use Rattle.std.proofs.lemmas.List.Edits.{sets};
ghost use Rattle.kinds.specs.Clauses.{lits_at, end_at};
ghost use Rattle.calls.specs.Adding.{new_words};

// "Adding appends header and literals with activity +0, active and mark 0." The caller has tested the room and the tier.
pub fn add_clause(words: &mut [u32], used: usize, tier: u32, glue: usize, lits: &[u32])
    requires { (used + (length lits.now + 3) ≤ length words.old) × (tier < 4) × (length lits.now < 2 ^ 32) }
    ensures { words.new ≡ sets words.old used (new_words tier glue lits.now) }
{
    words[used] = 0;
    words[used + 1] = header::new_head(tier, glue);
    words[used + 2] = lits.len() as u32;
    buffers::copy(words, used + 3, lits, 0, lits.len());
}

// "A clause's literals are handed back as the part of the word buffer that holds them." The clause ends within the buffer, as every listed one does.
pub fn lits(words: &[u32], offset: usize) -> &[u32]
    requires { end_at words.now offset ≤ length words.now }
    ensures { result.now ≡ lits_at words.now offset }
{
    let start = offset + 3;
    let end = start + words[offset + 2] as usize;
    &words[start..end]
}
