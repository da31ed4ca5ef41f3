// The rightmost pad of each strip of ports, when the strip gets its leftmost pads, for as many ports as pads (at most 64).
//
// A strip is a run of ports a .. b - 1. The place in `order` of its rightmost pad is found, or none where the strip has too
// few pads; a strip of no ports has the place after the last.
#![tactic(auto)]

ghost use Rattle.std.specs.Prelude.{◌≡◌, ◌+◌, ◌-◌, ◌≤◌, ◌<◌, leb, length, get_or, drop};
ghost use Rattle.pads.specs.Pads.{spans, fits, bit, pads_in, Head, head_of};
ghost use Rattle.pads.specs.Sides.{sides, Square};
ghost use Rattle.heads.specs.Heads.{Top};
ghost use Rattle.heads.specs.Given.{TalliesOn, EnteringOn};

use pads::Lists;

// What is kept of the strips from those that start at a + 1 to those that start at a: for each b a place `at`, how many
// of the strip's pads stand there or after it, `seen`, and how many the strip has, `all`.
#[derive(Clone, Copy)]
pub struct Kept {
    pub at: [u8; 65],
    pub seen: [u8; 65],
    pub all: [u8; 65],
}

// 1 where a pad with the sides l and h lies in the strip a .. b - 1, else 0.
#[tactic(auto, unfolding(pads::specs::Pads::spans))]
fn inside(a: u8, b: u8, l: u8, h: u8) -> u8
    ensures { result ≡ bit (spans a b l h) }
{
    u8::from(a <= l && h <= b)
}

// 1 where the pad at place k lies in the strip a .. b - 1, else 0.
fn stands(lists: &Lists, a: u8, b: u8, k: usize) -> u8
    requires square { Square lists.now }
    requires k_in_bounds { k < length lists.now.order.now }
    ensures { result ≡ bit (fits (sides lists.now) a b (get_or lists.now.order.now k 0)) }
{
    let j = usize::from(lists.order[k]);
    inside(a, b, lists.lo[j], lists.hi[j])
}

// 1 where place i is k or after it, else 0.
fn reached(k: u8, i: u8) -> u8
    ensures { (result ≡ bit (leb k i)) × (result ≤ 1) }
{
    u8::from(k <= i)
}

// The pad at place i comes in, if it lies above exactly a ports: one pad more for each b from its own height on.
fn enter_pad(kept: &mut Kept, lists: &Lists, a: usize, i: usize)
    requires square { Square lists.now }
    requires i_in_bounds { i < length lists.now.order.now }
    requires entering { EnteringOn lists.now kept.old a i }
    ensures entering_2 { EnteringOn lists.now kept.new a (i + 1) }
    ensures places { kept.new.at ≡ kept.old.at }
{
    let j = usize::from(lists.order[i]);
    if usize::from(lists.lo[j]) != a {
        return;
    }
    let place = i as u8;
    for b in usize::from(lists.hi[j])..lists.order.len() + 1 {
        kept.seen[b] += reached(kept.at[b], place);
        kept.all[b] += 1;
    }
}

// The pads that lie above exactly a ports come in.
pub fn enter(kept: &mut Kept, lists: &Lists, a: usize)
    requires square { Square lists.now }
    requires tallies { TalliesOn lists.now kept.old (a + 1) }
    ensures tallies_2 { TalliesOn lists.now kept.new a }
    ensures places { kept.new.at ≡ kept.old.at }
{
    for i in 0..lists.order.len() {
        enter_pad(kept, lists, a, i);
    }
}

// From a place with `here` of the strip's pads from there on, too few, back to the place with b - a.
fn back(lists: &Lists, a: u8, b: u8, from: usize, here: u8) -> usize
    requires square { Square lists.now }
    requires from_in_bounds { (from ≤ length lists.now.order.now) × (here ≡ pads_in (sides lists.now) a b (drop from lists.now.order.now)) }
    requires here_bound { (here < b - a) × (b - a ≤ pads_in (sides lists.now) a b lists.now.order.now) }
    ensures { Top (sides lists.now) lists.now.order.now a b result }
{
    let w = b - a;
    let mut k = from;
    let mut m = here;
    // Stays: the number of pads ends the walk, and the place only goes along.
    while m < w {
        k -= 1;
        m += stands(lists, a, b, k);
    }
    k
}

// From a place with `here` of the strip's pads from there on, enough, on to the last place with b - a.
// Stays: `back` counts up to what this counts down to, and each has its own end.
fn on(lists: &Lists, a: u8, b: u8, from: usize, here: u8) -> usize
    requires square { Square lists.now }
    requires from_in_bounds { (from ≤ length lists.now.order.now) × (here ≡ pads_in (sides lists.now) a b (drop from lists.now.order.now)) }
    requires a_lt_b { (a < b) × (b - a ≤ here) }
    ensures { Top (sides lists.now) lists.now.order.now a b result }
{
    let w = b - a;
    let mut k = from;
    let mut rest = here - stands(lists, a, b, k);
    // Stays: the number of pads ends the walk, and the place only goes along.
    while w <= rest {
        k += 1;
        rest -= stands(lists, a, b, k);
    }
    k
}

// The place of the strip's rightmost pad, from any place with the number of its pads from there on.
fn top(lists: &Lists, a: u8, b: u8, from: usize, here: u8) -> usize
    requires square { Square lists.now }
    requires from_in_bounds { (from ≤ length lists.now.order.now) × (here ≡ pads_in (sides lists.now) a b (drop from lists.now.order.now)) }
    requires a_lt_b { (a < b) × (b - a ≤ pads_in (sides lists.now) a b lists.now.order.now) }
    ensures { Top (sides lists.now) lists.now.order.now a b result }
{
    if here < b - a {
        back(lists, a, b, from, here)
    } else {
        on(lists, a, b, from, here)
    }
}

// The place of the rightmost pad of the strip a .. b - 1, which is kept for the next row; none where the strip has too few.
pub fn head(kept: &mut Kept, lists: &Lists, a: usize, b: usize) -> Option<usize>
    requires square { Square lists.now }
    requires a_le_b { (a ≤ b) × (b ≤ length lists.now.order.now) }
    requires tallies { TalliesOn lists.now kept.old a }
    ensures head { Head (sides lists.now) lists.now.order.now a b (head_of result) }
    ensures tallies_2 { TalliesOn lists.now kept.new a }
    ensures numbers { kept.new.all ≡ kept.old.all }
{
    let w = b - a;
    if usize::from(kept.all[b]) < w {
        return None;
    }
    let k = if w == 0 {
        lists.order.len()
    } else {
        top(
            lists,
            a as u8,
            b as u8,
            usize::from(kept.at[b]),
            kept.seen[b],
        )
    };
    kept.at[b] = k as u8;
    kept.seen[b] = w as u8;
    Some(k)
}
