// The four tier lists: one more entry of a tier's list.
#![tactic(auto)]

ghost use Rattle.std.specs.Prelude.{◌≡◌, [], ◌∷◌, ℕ, ◌≤◌, ◌<◌, length};
ghost use Rattle.laws.specs.Lists.{at, list_at, push, lengths, take_each, fill_each};
ghost use Rattle.tier_lists.specs.Four.{four};

// The number of entries that the list of a tier has room for.
pub fn room(irred: usize, core: usize, mid: usize, local: usize, tier: usize) -> usize
    requires { tier < 4 }
    ensures { result ≡ at (irred ∷ core ∷ mid ∷ local ∷ []) tier }
{
    [irred, core, mid, local][tier]
}

// x behind the used part of a tier's list. Returns the used lengths. The caller has tested the room.
pub fn push(
    irred: &mut [u32],
    core: &mut [u32],
    mid: &mut [u32],
    local: &mut [u32],
    used: [usize; 4],
    tier: usize,
    x: u32,
) -> [usize; 4]
    requires tier_bound { (tier < 4) × (at used 0 ≤ length irred.old) × (at used 1 ≤ length core.old) × (at used 2 ≤ length mid.old) × (at used 3 ≤ length local.old) }
    requires tier_in_bounds { at used tier < length (list_at (four irred.old core.old mid.old local.old) tier) }
    ensures { (four irred.new core.new mid.new local.new
        ≡ fill_each (four irred.old core.old mid.old local.old) used (push tier x (take_each used (four irred.old core.old mid.old local.old))))
        × (result ≡ lengths (push tier x (take_each used (four irred.old core.old mid.old local.old)))) }
{
    let mut lens = used;
    let n = lens[tier];
    match tier {
        0 => irred[n] = x,
        1 => core[n] = x,
        2 => mid[n] = x,
        _ => local[n] = x,
    }
    lens[tier] += 1;
    lens
}
