// The steps of activity.rs and assess.rs that change a store, on what is lent. Each stands on what the judging and the refusals have established.
// The store's buffers are slices beside the state, each a parameter: "a state by value, slices beside it" (docs/01-scope.md, What must change shape).
#![tactic(auto)]

ghost use Rattle.std.specs.Prelude.{◌≡◌, [], true, ℕ, ◌+◌, ◌≤◌, ◌<◌, ◌^◌, length};
ghost use Rattle.kinds.specs.Header.{with_active, with_glue};
ghost use Rattle.kinds.specs.Clauses.{lits_at, end_at, change_head};
ghost use Rattle.kinds.specs.Lent.{lent_five, no_host, levels_only};
ghost use Rattle.kinds.specs.Layout.{view, lay};
ghost use Rattle.calls.specs.Call.{bump, five_lists, five_lists_levels};
ghost use Rattle.calls.specs.Bumping.{glue_for, tier_for, bumped, decayed};
ghost use Rattle.calls.specs.Outcome.{judged, own_number};
ghost use Rattle.calls.specs.Answers.{number_of};
ghost use Rattle.assess.specs.Levelled.{Levelled};

use kinds::{ClauseRef, Refusal, State};

// Decay is refused for nothing but 1 and 2 (`decay-allowed`).
pub fn decay(
    s: State,
    words: &mut [u32],
    clauses: &mut [u32],
    irred: &[u32],
    core: &[u32],
    mid: &[u32],
    local: &[u32],
) -> State
    requires { judged five_lists (lent_five s words.old clauses.old irred.now core.now mid.now local.now no_host) ≡ 0 }
    ensures { lent_five result words.new clauses.new irred.now core.now mid.now local.now no_host
        ≡ lay five_lists (lent_five s words.old clauses.old irred.now core.now mid.now local.now no_host)
        (decayed (view (lent_five s words.old clauses.old irred.now core.now mid.now local.now no_host))) }
{
    let left = activity::decay_activity(words, clauses, s.clauses, s.activity);
    State {
        clauses: left.listed,
        activity: left.activity,
        ..s
    }
}

// ---- bumping

// The glue of the clause at `offset` at the levels lent.
fn glue_now(words: &[u32], levels: &[u32], offset: usize) -> usize
    requires { (end_at words.now offset ≤ length words.now) × (length words.now ≤ 2 ^ 24) × Levelled levels.now (lits_at words.now offset) }
    ensures { result ≡ glue_for levels.now (lits_at words.now offset) }
{
    assess::compute_glue(levels, alloc::lits(words, offset))
}

// "tier Core to 2, Mid to 6, Local above"
fn tier_chosen(glue: usize) -> usize
    ensures { (result ≡ tier_for glue) × (result < 4) }
{
    assess::select_tier(glue).number() as usize
}

// "set active"
fn activate(words: &mut [u32], offset: usize)
    requires { offset + 3 ≤ length words.old }
    ensures { words.new ≡ change_head (with_active true) offset words.old }
{
    let place = offset + 1;
    words[place] = header::with_active(words[place], true);
}

fn store_glue(words: &mut [u32], offset: usize, glue: usize)
    requires { offset + 3 ≤ length words.old }
    ensures { words.new ≡ change_head (with_glue glue) offset words.old }
{
    let place = offset + 1;
    words[place] = header::with_glue(words[place], glue);
}

// "add bump to the activity, rescale if the sum exceeds the limit; set active; if the new glue is below the stored one, store it and choose the tier anew"
pub fn bump(
    s: State,
    words: &mut [u32],
    clauses: &mut [u32],
    irred: &mut [u32],
    core: &mut [u32],
    mid: &mut [u32],
    local: &mut [u32],
    levels: &[u32],
    cref: ClauseRef,
) -> State
    requires levels_value { judged five_lists_levels (lent_five s words.old clauses.old irred.old core.old mid.old local.old (levels_only levels.now)) ≡ 0 }
    requires levels_value_2 { own_number (bump cref.0) (lent_five s words.old clauses.old irred.old core.old mid.old local.old (levels_only levels.now)) ≡ 0 }
    ensures { lent_five result words.new clauses.new irred.new core.new mid.new local.new (levels_only levels.now)
        ≡ lay five_lists_levels (lent_five s words.old clauses.old irred.old core.old mid.old local.old (levels_only levels.now))
        (bumped cref.0 (view (lent_five s words.old clauses.old irred.old core.old mid.old local.old (levels_only levels.now)))) }
{
    let offset = cref.0 as usize;
    let glue = glue_now(words, levels, offset);
    let left = activity::bump_activity(words, clauses, s.clauses, offset, s.activity);
    let mut next = s;
    next.clauses = left.listed;
    next.activity = left.activity;
    activate(words, offset);
    let before = header::glue_of(words[offset + 1]) as usize;
    if before <= glue {
        return next;
    }
    store_glue(words, offset, glue);
    let tier = tier_chosen(glue);
    let old = judge_words::tier_at(words, offset);
    if old == tier {
        return next;
    }
    let place = offset + 1;
    words[place] = header::with_tier(words[place], tier as u32);
    next.tiers = tier_lists::push(irred, core, mid, local, s.tiers, tier, cref.0);
    next.counts[old] -= 1;
    next.counts[tier] += 1;
    next
}

// 6, and 11 where the tier is chosen anew and its list is full.
pub fn refuse_bump(
    s: State,
    words: &[u32],
    clauses: &[u32],
    irred: &[u32],
    core: &[u32],
    mid: &[u32],
    local: &[u32],
    levels: &[u32],
    cref: ClauseRef,
) -> Result<(), Refusal>
    requires { judged five_lists_levels (lent_five s words.now clauses.now irred.now core.now mid.now local.now (levels_only levels.now)) ≡ 0 }
    ensures { number_of result ≡ own_number (bump cref.0) (lent_five s words.now clauses.now irred.now core.now mid.now local.now (levels_only levels.now)) }
{
    let offset = cref.0 as usize;
    if !judge_words::is_live(words, s.words, clauses, s.clauses, offset) {
        return Err(Refusal::Reference);
    }
    let glue = glue_now(words, levels, offset);
    let head = words[offset + 1];
    let before = header::glue_of(head) as usize;
    if before <= glue {
        return Ok(());
    }
    let tier = tier_chosen(glue);
    let old = header::tier_of(head) as usize;
    if old == tier {
        return Ok(());
    }
    let room = tier_lists::room(irred.len(), core.len(), mid.len(), local.len(), tier);
    if s.tiers[tier] < room {
        Ok(())
    } else {
        Err(Refusal::Room)
    }
}
