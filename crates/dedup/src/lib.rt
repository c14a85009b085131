// Dropping the stale and repeated entries of a tier's list in place, by means of the mark bit, as the source's `dedup_and_mark_by_tier`; the marks are taken away again.
#![tactic(auto)]

ghost use Rattle.std.specs.Prelude.{◌≡◌, List, [], ◌++◌, ℕ, ◌+◌, ◌%◌, ◌<◌, ◌≤◌, eqb, length, take, drop};
ghost use Rattle.laws.specs.Fold.{fold_list};
ghost use Rattle.calls.specs.Reducing.{kept_first};
ghost use Rattle.dedup.specs.Marks.{Entries, Marked, Unmarkable, Kept};

// Word 1 of a clause of the tier that is neither deleted nor marked.
fn retained(head: u32, tier: u32) -> bool
    requires { tier < 4 }
    ensures { result ≡ eqb (head % 16) tier }
{
    !header::deleted_of(head) && !header::mark_of(head) && header::tier_of(head) == tier
}

// Keeps the first of each entry of the tier at the front, and marks them.
fn mark(words: &mut [u32], list: &mut [u32], tier: u32) -> usize
    requires tier_bound { tier < 4 }
    requires entries { Entries words.old tier list.old }
    ensures few { result ≤ length list.old }
    ensures kept { take result list.new ≡ fold_list (kept_first words.old tier) [] list.old }
    ensures marked { Marked (take result list.new) words.old words.new }
    ensures unmarkable { Unmarkable (take result list.new) words.new }
{
    let mut k = 0;
    for i in 0..list.len() {
        let r = list[i];
        let at = r as usize + 1;
        let head = words[at];
        if retained(head, tier) {
            words[at] = header::with_mark(head, true);
            list[k] = r;
            k += 1;
        }
    }
    k
}

// Takes the marks away again.
fn unmark(words: &mut [u32], list: &[u32])
    requires { Unmarkable list.now words.old }
    ensures { Marked list.now words.new words.old }
{
    for r in list {
        let at = *r as usize + 1;
        words[at] = header::with_mark(words[at], false);
    }
}

// "drop stale and repeated entries, the first of equals staying": of the first n entries of a tier's list. Returns how many are kept. The words stay.
// The entries are those of a store that passes: live references, whose mark is 0, or stale offsets within the words.
pub fn clean(words: &mut [u32], list: &mut [u32], n: usize, tier: u32) -> usize
    requires n_in_bounds { n ≤ length list.old }
    requires tier_bound { tier < 4 }
    requires entries { Entries words.old tier (take n list.old) }
    ensures kept { Kept words.old tier n list.old list.new result }
    ensures words_unchanged { words.new ≡ words.old }
{
    let k = mark(words, &mut list[..n], tier);
    unmark(words, &list[..k]);
    k
}
