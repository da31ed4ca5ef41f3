// The table of least totals where there may be more ports than pads (at most 64 pads, at most 128 ports), in a work list
// that the caller lends. The list holds n + 1 layers of (p + 2) × (p + 2) numbers: in layer k the strip of the ports
// a .. b - 1 stands at place a of column b, with the least total of those pads from place k of `order` on that lie in the
// strip, or NONE. Then n × p open figures, by place and port, NONE where the port is not for that pad; then the figures
// that the caller wrote, n × p, by pad and port: one of 2^32 or more says that the pad may not use the port.
#![tactic(auto)]

ghost use Rattle.std.specs.Prelude.{◌≡◌, ◌+◌, ◌-◌, ◌*◌, ◌^◌, ◌≤◌, ◌<◌, min, length, get_or, MatchOption};
ghost use Rattle.numbers.specs.Kept.{KeptFrom};
ghost use Rattle.pads.specs.Sides.{sides};
ghost use Rattle.totals.specs.Strip.{value};
ghost use Rattle.totals.specs.Cell.{Leads, NextPort};
ghost use Rattle.slots.specs.Slots.{layer_of, figures_at, figures_in, opened_of, lowest, Room};
ghost use Rattle.slots.specs.Slots.{Written, follows, opened_from, Shuts, LayerTo, Summed, Sums, Fillable, FilledStrips, Three, TellsLeast, Inside};
ghost use Rattle.slots.specs.Columns.{Reads, total_at};
ghost use Rattle.slots.specs.Filling.{figures_after, figures_on, RoomOn, OpensOn, LayerOn, SlotTableOn, slot_grid_on};

use pads::Lists;

// Stays: the list that a caller lends holds plain numbers, and three of these can be added.
const NONE: u64 = 4611686018427387904;

// A figure from here on says that the pad may not use the port.
const LIMIT: u64 = 4294967296;

// How many numbers a layer has.
#[tactic(auto, using(crate::proofs::Spots::layer_small), unfolding(crate::specs::Slots::layer_of))]
fn layer_of(p: usize) -> usize
    requires { p ≤ 128 }
    ensures { (result ≡ layer_of p) × (result ≤ 16900) }
{
    (p + 2) * (p + 2)
}

// A figure on a port: open where no pad bars the port, and the figure is one.
#[tactic(auto, unfolding(crate::specs::Slots::figure_of))]
fn opened(barred: bool, x: u64) -> u64
    ensures { result ≡ opened_of barred x }
{
    if !barred && x < LIMIT { x } else { NONE }
}

// One pad's open figures.
fn open_row(shut: &[bool], work: &mut [u64], from: usize, to: usize, p: usize)
    requires { (p ≤ length shut.now) × (to + p ≤ from) × (from + p ≤ length work.old) }
    ensures { Written work.old work.new to p (opened_from shut.now work.old from) p }
{
    for q in 0..p {
        work[to + q] = opened(shut[q], work[from + q]);
    }
}

// The port at a pad's height, if there is one, is not for pads further right.
fn shut_port(shut: &mut [bool], l: usize, h: usize)
    requires { (l ≤ h) × (h ≤ l + 1) × (h ≤ length shut.old) }
    ensures { Shuts l h shut.old shut.new }
{
    if l < h {
        shut[l] = true;
    }
}

// The open figures, from the last place to the first: the ports at the heights of the pads passed are marked.
fn open_figures(work: &mut [u64], lists: &Lists)
    requires { RoomOn lists.now work.old }
    ensures kept_from { KeptFrom (figures_after lists.now) work.old work.new }
    ensures opens { OpensOn lists.now work.old work.new }
{
    let n = lists.order.len();
    let p = lists.ports;
    let opens = (n + 1) * layer_of(p);
    let figures = opens + n * p;
    // Stays: no call allocates, so there is a mark for each of 128 ports.
    let mut shut = [false; 128];
    for k in (0..n).rev() {
        let j = usize::from(lists.order[k]);
        open_row(&shut, work, figures + j * p, opens + k * p, p);
        let low = usize::from(lists.lo[j]);
        let high = usize::from(lists.hi[j]);
        shut_port(&mut shut, low, high);
    }
}

// Zeros, from `base` on.
fn clear(work: &mut [u64], base: usize, count: usize)
    requires { base + count ≤ length work.old }
    ensures { Written work.old work.new base count (λ _. 0) count }
{
    work[base..base + count].fill(0);
}

// What stands after the `count` numbers from `here` on, once more in their place.
fn double(work: &mut [u64], here: usize, count: usize)
    requires { here + count + count ≤ length work.old }
    ensures { Written work.old work.new here count (follows work.old (here + count)) count }
{
    let next = here + count;
    work.copy_within(next..next + count, here);
}

// For each port from a on its figure and the least total below it, with the strip's first port a.
fn sum_row(row: &mut [u64; 128], work: &[u64], figures: usize, next: usize, p: usize, a: usize)
    requires { Summed work.now figures next p a }
    ensures { Sums row.new work.now figures next p a }
{
    let side = p + 2;
    for q in a..p {
        row[q] = (work[figures + q] + work[next + (q * side + a)]).min(NONE);
    }
}

// What the least totals of the strips that end at one port are read from: for each port the sum that `row` has of it and of what
// lies below it, and from place `above` of the work list on the least totals above it.
#[derive(Clone, Copy)]
struct Column<'a> {
    row: &'a [u64],
    work: &'a [u64],
    above: usize,
}

impl Column<'_> {
    // The least total so far, v, and that of one port more. The sum comes first: the compiler makes less of `v.min(..)`.
    fn with_port(&self, v: u64, q: usize) -> u64
        requires { Reads self.now q (q + 1) }
        ensures { result ≡ min v (total_at self.now q) }
    {
        (self.row[q] + self.work[self.above + q]).min(v)
    }

    // From v, the least total over the ports a .. q - 1, that over four ports more.
    fn with_four(&self, a: usize, v: u64, q: usize) -> u64
        requires { Reads self.now a (q + 4) × (a ≤ q) × (v ≡ lowest (total_at self.now) a (q - a)) }
        ensures { result ≡ lowest (total_at self.now) a (q + 4 - a) }
    {
        let mut least = v;
        for k in 0..4 {
            least = self.with_port(least, q + k);
        }
        least
    }

    // The least total over the ports a .. c - 1, one by one. None is less than 0.
    fn by_one(&self, a: usize, c: usize) -> u64
        requires { Reads self.now a c }
        ensures { result ≡ lowest (total_at self.now) a (c - a) }
    {
        let mut v = NONE;
        for q in a..c {
            v = self.with_port(v, q);
            if v == 0 {
                return 0;
            }
        }
        v
    }

    // .. and, from port c on, four by four. A plain loop without a way out the compiler turns into vectors, and a 64-bit
    // comparison of those costs more than it saves.
    // Stays: `by_one` on all ports runs a third more instructions.
    fn by_four(&self, a: usize, c: usize, turns: usize, least: u64) -> u64
        requires readable { Reads self.now a (c + 4 * turns) × (a ≤ c) }
        requires least_value { least ≡ lowest (total_at self.now) a (c - a) }
        ensures { result ≡ lowest (total_at self.now) a (c + 4 * turns - a) }
    {
        let mut v = least;
        for turn in 0..turns {
            v = self.with_four(a, v, c + 4 * turn);
            if v == 0 {
                return 0;
            }
        }
        v
    }

    // The least total of the strip a .. b - 1.
    fn least_total(&self, a: usize, b: usize) -> u64
        requires { Reads self.now a b }
        ensures { result ≡ lowest (total_at self.now) a (b - a) }
    {
        let turns = (b - a) / 4;
        let c = b - 4 * turns;
        let v = self.by_one(a, c);
        self.by_four(a, c, turns, v)
    }
}

// The strips that start at a and end at h or after it, in the layer that starts at `here`.
fn fill_strips(row: &[u64], work: &mut [u64], here: usize, p: usize, a: usize, h: usize)
    requires { Fillable row.now work.old here p a h }
    ensures { FilledStrips row.now work.old work.new here p a h (p + 1) }
{
    let side = p + 2;
    let layer = layer_of(p);
    // Stays: worked out from b each time, the column's place costs up to three more instructions in a hundred.
    let mut column = here + h * side;
    for b in h..p + 1 {
        let strips = Column {
            row,
            work,
            above: column + layer + 1,
        };
        work[column + a] = strips.least_total(a, b);
        column += side;
    }
}

// The strips in which the pad at place k lies, in its layer, which starts at `here`.
fn fill_rows(row: &mut [u64; 128], work: &mut [u64], lists: &Lists, k: usize, here: usize)
    requires room { RoomOn lists.now work.old }
    requires k_in_bounds { (k < length lists.now.order.now) × (here ≡ k * layer_of lists.now.ports) }
    requires opens { OpensOn lists.now work.old work.old }
    requires layer { LayerOn lists.now work.old (k + 1) work.old (here + layer_of lists.now.ports) }
    requires layer_to { LayerTo (sides lists.now) (figures_on lists.now work.old) lists.now.order.now lists.now.ports k work.old work.old here 0 }
    ensures kept_from { KeptFrom (here + layer_of lists.now.ports) work.old work.new }
    ensures layer_2 { LayerOn lists.now work.old k work.new here }
{
    let p = lists.ports;
    let layer = layer_of(p);
    let figures = (lists.order.len() + 1) * layer + k * p;
    let j = usize::from(lists.order[k]);
    let low = usize::from(lists.lo[j]);
    let high = usize::from(lists.hi[j]);
    for a in 0..low + 1 {
        sum_row(row, work, figures, here + layer, p, a);
        fill_strips(row, work, here, p, a, high);
    }
}

// The layer of place k, which starts at `here`: that of place k + 1, and the strips in which the pad at place k lies.
fn fill_layer(row: &mut [u64; 128], work: &mut [u64], lists: &Lists, k: usize, here: usize)
    requires room { RoomOn lists.now work.old }
    requires k_in_bounds { (k < length lists.now.order.now) × (here ≡ k * layer_of lists.now.ports) }
    requires opens { OpensOn lists.now work.old work.old }
    requires layer { LayerOn lists.now work.old (k + 1) work.old (here + layer_of lists.now.ports) }
    ensures kept_from { KeptFrom (here + layer_of lists.now.ports) work.old work.new }
    ensures layer_2 { LayerOn lists.now work.old k work.new here }
{
    double(work, here, layer_of(lists.ports));
    fill_rows(row, work, lists, k, here);
}

// Fills the work list, and answers the least total of all pads on all ports, or NONE.
// Stays: the answer is the list's own number, which the walks compare with a layout's total.
pub fn fill(work: &mut [u64], lists: &Lists) -> u64
    requires { RoomOn lists.now work.old }
    ensures kept_from { KeptFrom (figures_after lists.now) work.old work.new }
    ensures slot_table { SlotTableOn lists.now work.new }
    ensures tells_least { TellsLeast lists.now.order.now lists.now.lo.now lists.now.hi.now lists.now.ports work.new result }
{
    let mut row = [0u64; 128];
    let p = lists.ports;
    let layer = layer_of(p);
    open_figures(work, lists);
    let n = lists.order.len();
    clear(work, n * layer, layer);
    for k in (0..n).rev() {
        fill_layer(&mut row, work, lists, k, k * layer);
    }
    work[p * (p + 2)]
}

// A port's total: its figure, and the least totals below and above it.
fn port_total(work: &[u64], figure: usize, below: usize, above: usize) -> u64
    requires { Three work.now figure below above }
    ensures { result ≡ get_or work.now figure 0 + get_or work.now below 0 + get_or work.now above 0 }
{
    work[figure] + work[below] + work[above]
}

// The smallest port of the strip a .. b - 1, from `from` on, that leads the pad at place m in a best layout of the pads
// from there on that lie in the strip.
pub fn next_port(
    work: &[u64],
    lists: &Lists,
    m: usize,
    a: usize,
    b: usize,
    from: usize,
) -> Option<usize>
    requires table { SlotTableOn lists.now work.now }
    requires inside { Inside (slot_grid_on lists.now work.now) lists.now.order.now lists.now.ports m a b }
    requires a_le_from { (a ≤ from) × (from ≤ b) }
    ensures { MatchOption result
        (NextPort (Leads (slot_grid_on lists.now work.now) lists.now.order.now m a b) from b b)
        (λ q. NextPort (Leads (slot_grid_on lists.now work.now) lists.now.order.now m a b) from b q × (q < b)) }
{
    let p = lists.ports;
    let side = p + 2;
    let layer = layer_of(p);
    let figures = (lists.order.len() + 1) * layer + m * p;
    let column = m * layer + b * side;
    let best = work[column + a];
    if NONE <= best {
        return None;
    }
    let next = (m + 1) * layer;
    let above = column + layer + 1;
    for q in from..b {
        if port_total(work, figures + q, next + (q * side + a), above + q) == best {
            return Some(q);
        }
    }
    None
}

// Where the figures of n pads with p ports stand: that of pad j with port q at j * p + q from there on.
pub fn figures_at(n: usize, p: usize) -> usize
    requires { (n ≤ 64) × (p ≤ 128) }
    ensures { (result ≡ figures_at n p) × (result ≤ 2000000) }
{
    (n + 1) * layer_of(p) + n * p
}

// The figure of pad j on port q; 0 where the pad may not use the port.
// Stays: who asks has a pad that may use the port, and would only unwrap an Option.
pub fn figure(work: &[u64], n: usize, p: usize, j: usize, q: usize) -> u64
    requires { Room n p (length work.now) × (j < n) × (q < p) }
    ensures { (result ≡ value (figures_in work.now n p j q)) × (result < 2 ^ 32) }
{
    let x = work[figures_at(n, p) + (j * p + q)];
    if x < LIMIT { x } else { 0 }
}
