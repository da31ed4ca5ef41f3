// How many best layouts there are, and the layout at any place of their order, over plain numbers, for as many ports as pads.
// `buffer` is lent. It has for each strip, in the table's order, the ports that lead its rightmost pad in a best layout, as a
// set: binary digit q for port q. After these `sets` come the `numbers`, one for each strip, in the same order: how many best
// layouts the strip's pads have in it, or NOT_YET. A number above 10^18 is told by MOST, the first of them.
// The sets say all that is read of what a pad costs with a port: the contracts speak of any costs C that have these sets.
#![tactic(auto)]

ghost use Rattle.std.specs.Prelude.{◌≡◌, ℕ, ◌+◌, ◌*◌, ◌≤◌, ◌<◌, length};
ghost use Rattle.std.specs.Iterator.{at_most};
ghost use Rattle.strips.specs.Least.{Least};
ghost use Rattle.totals.specs.Cell.{corner_of};
ghost use Rattle.places.specs.Places.{Placed};
ghost use Rattle.counting.specs.Counting.{limit, capped, FirstPort, ProperBoard, costed, CountOf, Countable, Numbers, EmptyKept, Ready, Buffer, CountIs};
ghost use Rattle.counting.specs.Counting.{Site, Pickable, PickedIs, Choosable, ChosenIs, Placeable, WalkIs, PlaceIs};

use pads::Lists;

// A port, how many layouts have it after the ports chosen before, and the place among these.
#[derive(Clone, Copy)]
pub struct Picked {
    pub port: usize,
    pub rest: u64,
    pub ways: u64,
}

// Why no layout stands at a place: the count is above the limit; or the place is not below the count.
#[derive(Clone, Copy, Debug, PartialEq, Eq)]
pub enum NoPlace {
    TooMany,
    Past,
}

// Stays: what the lent buffer holds are plain numbers, so that these two say what they do by their size.
const MOST: u64 = 1000000000000000001;

const NOT_YET: u64 = 4611686018427387904;

// Two numbers that have less than this together are multiplied, and up to 64 products added, without a look at MOST.
const SMALL: u64 = 400000000;

// The ports of a set, in rising order.
#[derive(Drop)]
struct Ports(u64);

impl Iterator for Ports {
    type Item = usize;

    ghost next_gives = { λ s r t. FirstPort s.0 r t.0 };

    ghost remaining = { λ s. at_most s.0 };

    fn next(&mut self) -> Option<usize> {
        if self.0 == 0 {
            return None;
        }
        let q = self.0.trailing_zeros() as usize;
        self.0 &= self.0 - 1;
        Some(q)
    }
}

// The product, up to MOST.
fn times(x: u64, y: u64) -> u64
    ensures { result ≡ capped (x * y) }
{
    x.saturating_mul(y).min(MOST)
}

// Where the numbers of n pads begin in the buffer: after the sets.
fn base_of(n: usize) -> usize
    requires { n ≤ 64 }
    ensures { (result ≡ corner_of (n + 1)) × (result ≤ 2145) }
{
    totals::corner(n) + n + 1
}

// Counts the best layouts of the strip a .. b - 1, and keeps the number: with the strip's rightmost pad on a port that leads
// it, they are those of the part below the pad's arm, each with each of those of the part above. What is called is this, so that
// a part whose number is kept takes no call.
#[inline(never)]
#[cycle(strips)]
fn count_strip(sets: &[u64], numbers: &mut [u64], a: usize, b: usize) -> u64
    requires numbers { Numbers sets.now numbers.old × (a < b) }
    requires countable { Countable sets.now a b }
    ensures count_of { CountOf sets.now a b result × (result ≤ limit + 1) }
    ensures numbers_2 { Numbers sets.now numbers.new }
{
    let corner = totals::corner(b);
    let mut sum: u64 = 0;
    for q in Ports(sets[corner + a]) {
        let under = numbers[totals::corner(q) + a];
        let over = numbers[corner + q + 1];
        if under + over < SMALL {
            sum += under * over;
        } else {
            let under = number(sets, numbers, a, q);
            let over = number(sets, numbers, q + 1, b);
            sum = (sum.min(MOST) + times(under, over)).min(MOST);
            if sum == MOST {
                // more layouts change nothing
                break;
            }
        }
    }
    sum = sum.min(MOST);
    numbers[corner + a] = sum;
    sum
}

// How many best layouts the strip a .. b - 1 has: the number kept for it, or it is counted.
#[cycle(strips)]
fn number(sets: &[u64], numbers: &mut [u64], a: usize, b: usize) -> u64
    requires numbers { Numbers sets.now numbers.old }
    requires countable { Countable sets.now a b }
    ensures count_of { CountOf sets.now a b result × (result ≤ limit + 1) }
    ensures numbers_2 { Numbers sets.now numbers.new }
{
    let kept = numbers[totals::corner(b) + a];
    if kept == NOT_YET {
        return count_strip(sets, numbers, a, b);
    }
    kept
}

// Keeps the number of each strip of no ports, among those of n ports: it has one layout.
fn keep_empty(numbers: &mut [u64], n: usize)
    requires { (n ≤ 64) × (corner_of (n + 1) ≤ length numbers.old) }
    ensures { EmptyKept (n + 1) numbers.old numbers.new }
{
    let mut at = 0;
    for b in 0..n + 1 {
        numbers[at] = 1;
        at += b + 2;
    }
}

// The number of all best layouts of n pads, up to MOST. What `numbers` held is not read.
fn count_all(sets: &[u64], numbers: &mut [u64], n: usize) -> u64
    requires room { (n ≤ 64) × (length sets.now ≡ corner_of (n + 1)) × (length sets.now ≤ length numbers.old) }
    requires countable { Countable sets.now 0 n }
    ensures count_of { CountOf sets.now 0 n result × (result ≤ limit + 1) }
    ensures numbers_2 { Numbers sets.now numbers.new }
{
    numbers[..sets.len()].fill(NOT_YET);
    keep_empty(numbers, n);
    number(sets, numbers, 0, n)
}

// The number of best layouts, up to MOST. What the buffer held after the sets is not read.
pub fn count(l: &Lists, buffer: &mut [u64]) -> u64
    requires ready { (C : ℕ → ℕ → Least) × Ready l.now C buffer.old }
    requires room { 2 * ((length l.now.order.now + 2) * (length l.now.order.now + 2)) ≤ length buffer.old }
    ensures count_is { (C : ℕ → ℕ → Least) → Ready l.now C buffer.old → CountIs (costed l.now C) l.now.order.now result }
    ensures buffer { Buffer (length l.now.order.now) buffer.old buffer.new }
{
    let n = l.order.len();
    let base = base_of(n);
    let (sets, numbers) = buffer.split_at_mut(base);
    count_all(sets, numbers, n)
}

// The port of the strip a .. b - 1 on which place k falls, for its rightmost pad. The ports are gone through in rising order,
// each with its layouts: those of the strip, each with each of `others` of the rest of the board.
fn pick(sets: &[u64], numbers: &mut [u64], a: usize, b: usize, others: u64, k: u64) -> Picked
    requires numbers { Numbers sets.now numbers.old }
    requires pickable { (s : Site) × Pickable sets.now a b others k s }
    ensures picked_is { (s : Site) → Pickable sets.now a b others k s → PickedIs s.board s.order s.place a b others k result }
    ensures numbers_2 { Numbers sets.now numbers.new }
{
    let mut rest = k;
    for q in Ports(sets[totals::corner(b) + a]) {
        let under = number(sets, numbers, a, q);
        let over = number(sets, numbers, q + 1, b);
        let ways = others * (under * over);
        if rest < ways {
            return Picked {
                port: q,
                rest,
                ways,
            };
        }
        rest -= ways;
    }
    // k is below the sum over all ports
    unreachable!()
}

// The port on which place k falls, of the `ways` layouts that go on from the ports that w gives to the pads before place m.
// They are those of the pad's strip, each with each of the rest of the board, so that a quotient has the number of the rest.
fn choose(
    l: &Lists,
    sets: &[u64],
    numbers: &mut [u64],
    w: &[u16],
    at: &[u8],
    m: usize,
    ways: u64,
    k: u64,
) -> Picked
    requires proper_board { ProperBoard l.now }
    requires numbers { Numbers sets.now numbers.old }
    requires placed { (m < length l.now.order.now) × Placed l.now.order.now w.now m at.now }
    requires choosable { (C : ℕ → ℕ → Least) × Choosable l.now C sets.now w.now m ways }
    requires ways_bound { (ways ≤ limit) × (k < ways) }
    ensures chosen_is { (C : ℕ → ℕ → Least) → Choosable l.now C sets.now w.now m ways → ChosenIs (costed l.now C) l.now.order.now w.now m k result }
    ensures numbers_2 { Numbers sets.now numbers.new }
{
    let j = l.order[m] as usize;
    let before = m as u8;
    let a = places::low(at, l.lo[j] as usize, before);
    let b = places::high(at, l.hi[j] as usize, before, l.order.len());
    let here = number(sets, numbers, a, b);
    let others = ways / here;
    pick(sets, numbers, a, b, others, k)
}

// The layout at place k of the c best layouts, from the rightmost pad on. Its room is not to be added to that of the caller.
// Stays: of a port that none has `at` says 64, as in `steps`.
#[inline(never)]
fn walk(l: &Lists, sets: &[u64], numbers: &mut [u64], out: &mut [u16], c: u64, k: u64)
    requires proper_board { ProperBoard l.now × (length l.now.order.now ≤ length out.old) }
    requires numbers { Numbers sets.now numbers.old }
    requires placeable { (C : ℕ → ℕ → Least) × Placeable l.now C sets.now c k }
    ensures { (C : ℕ → ℕ → Least) → Placeable l.now C sets.now c k → WalkIs (costed l.now C) l.now.order.now out.old k out.new }
{
    let mut at = [64u8; 128];
    let mut ways = c;
    let mut rest = k;
    for m in 0..l.order.len() {
        let j = l.order[m] as usize;
        let p = choose(l, sets, numbers, out, &at, m, ways, rest);
        out[j] = (p.port % 65536) as u16;
        at[p.port] = m as u8;
        ways = p.ways;
        rest = p.rest;
    }
}

// The best layout at place k, counted from 0, without those before it. What the buffer held after the sets is not read.
pub fn place(l: &Lists, buffer: &mut [u64], out: &mut [u16], k: u64) -> Result<(), NoPlace>
    requires proper_board { ProperBoard l.now × (length l.now.order.now ≤ length out.old) }
    requires ready { (C : ℕ → ℕ → Least) × Ready l.now C buffer.old }
    requires room { 2 * ((length l.now.order.now + 2) * (length l.now.order.now + 2)) ≤ length buffer.old }
    ensures { (C : ℕ → ℕ → Least) → Ready l.now C buffer.old → PlaceIs (costed l.now C) l.now.order.now out.old k out.new result }
{
    let n = l.order.len();
    let base = base_of(n);
    let (sets, numbers) = buffer.split_at_mut(base);
    let c = count_all(sets, numbers, n);
    if c == MOST {
        return Err(NoPlace::TooMany);
    }
    if c <= k {
        return Err(NoPlace::Past);
    }
    walk(l, sets, numbers, out, c, k);
    Ok(())
}
