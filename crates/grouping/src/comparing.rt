// Members with the same profile are one part.

ghost use Rattle.std.specs.Prelude.{ℕ, ◌≤◌, ◌<◌, length, get_or};
ghost use Rattle.profiles.specs.Sums.{Compares};
ghost use Rattle.grouping.specs.Groups.{profile_in, Ready, PartFound, Grouped};

use profiles::{Entries, Region};
use states::State;
use uses::Uses;

// Whether two states have the same profile.
fn alike(p: State, q: State, uses: &Uses, ends: &[u16; 256], entries: &Entries) -> bool
    requires first { Ready uses.now ends.now entries.now p.0 }
    requires second { Ready uses.now ends.now entries.now q.0 }
    ensures { Compares (profile_in uses.now ends.now entries.now p.0) (profile_in uses.now ends.now entries.now q.0) result }
{
    let i = p.0 as usize;
    let k = q.0 as usize;
    let first = Region {
        lo: uses.starts[i] as usize,
        hi: ends[i] as usize,
    };
    let second = Region {
        lo: uses.starts[k] as usize,
        hi: ends[k] as usize,
    };
    entries.same(first, second)
}

// The first of the parts whose leader has p's profile, if there is one. (Tried with `position`: two goals stay open.)
fn find_part(
    p: State,
    leaders: &[u8],
    uses: &Uses,
    ends: &[u16; 256],
    entries: &Entries,
) -> Option<usize>
    requires own { Ready uses.now ends.now entries.now p.0 }
    requires leaders { (m : ℕ) → m < length leaders.now → Ready uses.now ends.now entries.now (get_or leaders.now m 0) }
    ensures { (a : ℕ) → PartFound a (profile_in uses.now ends.now entries.now) p.0 (length leaders.now) leaders.now result }
{
    for (m, leader) in leaders.iter().enumerate() {
        if alike(State(*leader), p, uses, ends, entries) {
            return Some(m);
        }
    }
    None
}

// Puts members into parts. Answers how many parts there are.
pub fn group_by_profile(
    members: &[u8],
    uses: &Uses,
    ends: &[u16; 256],
    entries: &Entries,
    part: &mut [u8; 256],
) -> usize
    requires few { length members.now ≤ 256 }
    requires ready { (i : ℕ) → i < length members.now → Ready uses.now ends.now entries.now (get_or members.now i 0) }
    ensures { (a : ℕ) → Grouped a (profile_in uses.now ends.now entries.now) (length members.now) members.now result part.new }
{
    let mut leaders = [0u8; 256];
    let mut parts = 0;
    for (i, p) in members.iter().enumerate() {
        match find_part(State(*p), &leaders[..parts], uses, ends, entries) {
            Some(m) => part[i] = m as u8,
            None => {
                part[i] = parts as u8;
                leaders[parts] = *p;
                parts += 1;
            }
        }
    }
    parts
}
