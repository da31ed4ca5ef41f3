// The best total of a strip from those of its parts, and the ports that attain it, for as many ports as pads (at most 64).
//
// A strip is a run of ports a .. b - 1, and its cell stands at place a of b's column, `corner(b) + a`, in a table:
// `heads` has 1 more than the place in `order` of the strip's rightmost pad, or 0 where the strip has too few pads or
// no layout, and `totals` the best total of the strip's pads, or NONE. While row a is filled, two short lists have
// the cells of its strips at b: the parts below a port are read there.
#![tactic(auto)]

ghost use Rattle.std.specs.Prelude.{◌≡◌, cond, ◌+◌, ◌-◌, ◌*◌, ◌^◌, ◌≤◌, ◌<◌, eqb, length, get_or, None, MatchOption};
ghost use Rattle.pads.specs.Pads.{Head, head_of};
ghost use Rattle.pads.specs.Sides.{sides, Square};
ghost use Rattle.totals.specs.Cell.{no_total, Strip, NextPort, corner_of, opens, sum_at, joined, BestOf, Valued, Marks};
ghost use Rattle.totals.specs.Lent.{board, figures_of, choice_on, TableOn, PartsReady, FullOn, LeadsOn, trial_of, PortOf, total_of};

use pads::Lists;

// Heads and totals of strips: of all of them, or of those of a row.
#[derive(Clone, Copy)]
pub struct Table<'a> {
    pub heads: &'a [u8],
    pub totals: &'a [u64],
}

// What the pads cost: n × n entries each, pad by pad, ports rising: figures, and bytes of which any but 0 says that the
// pad may not use the port.
#[derive(Clone, Copy)]
pub struct Figures<'a> {
    pub cost: &'a [u32],
    pub bars: &'a [u8],
}

// What a pad's ports are tried by: the cells of the strips below a port and of those above it, the figures, the pad's own
// head, which theirs must pass, and where the pad's row of figures starts.
#[derive(Clone, Copy)]
struct Trial<'a> {
    pub low: Table<'a>,
    pub high: Table<'a>,
    pub figures: Figures<'a>,
    pub past: u8,
    pub row: usize,
}

// The least total so far, and the ports that have it: binary digit q for port q.
#[derive(Clone, Copy)]
pub struct Best {
    pub total: u64,
    pub ports: u64,
}

// Where there is no layout.
// Stays: the table's totals are numbers, since with an Option they take twice the room.
const NONE: u64 = u64::MAX;

// The place in a table of the strip 0 .. b - 1.
pub fn corner(b: usize) -> usize
    requires { b ≤ 64 }
    ensures { (result ≡ corner_of b) × (result ≤ 2080) }
{
    b * (b + 1) / 2
}

// The figure of pad j on port q, of a table of n × n.
pub fn figure(cost: &[u32], n: usize, j: usize, q: usize) -> u64
    requires { (j < n) × (q < n) × (n ≤ 64) × (length cost.now ≡ n * n) }
    ensures { (result ≡ get_or cost.now (j * n + q) 0) × (result < 2 ^ 32) }
{
    u64::from(cost[j * n + q])
}

impl<'a> Trial<'a> {
    // Whether both strips that a port leaves have a layout of pads after the one that takes it.
    fn opens(&self, below: usize, above: usize) -> bool
        requires { (below < length self.now.low.heads.now) × (above < length self.now.high.heads.now) }
        ensures { result ≡ opens self.now.low.heads.now self.now.high.heads.now self.now.past below above }
    {
        self.past < self.low.heads[below] && self.past < self.high.heads[above]
    }

    // The total with the pad on port q, which opens the two strips.
    fn sum(&self, q: usize, below: usize, above: usize) -> u64
        requires below_in_bounds { (below < length self.now.low.totals.now) × (above < length self.now.high.totals.now)
            × (self.now.row + q < length self.now.figures.cost.now) }
        requires below_bound { (get_or self.now.low.totals.now below 0 ≤ 2 ^ 38) × (get_or self.now.high.totals.now above 0 ≤ 2 ^ 38) }
        ensures is { result ≡ sum_at self.now.low.totals.now self.now.high.totals.now self.now.figures.cost.now self.now.row q below above }
        ensures small { result < 2 ^ 40 }
    {
        u64::from(self.figures.cost[self.row + q])
            + (self.low.totals[below] + self.high.totals[above])
    }

    // The best so far, v, and one port more, q. A bar is read only where it counts: most totals are more than v's.
    fn better(&self, v: Best, q: usize, above: usize) -> Best
        requires port { PortOf self.now q q above }
        requires q_bound { (q < 64) × (v.ports < 2 ^ q) }
        ensures { result ≡ joined v (total_of self.now q q above) q }
    {
        if self.opens(q, above) {
            let s = self.sum(q, q, above);
            // Stays: with both tests in one condition the loop runs a fifth more instructions.
            if s < v.total {
                if self.figures.bars[self.row + q] == 0 {
                    return Best {
                        total: s,
                        ports: 1u64 << (q as u32),
                    };
                }
            } else if s == v.total && self.figures.bars[self.row + q] == 0 {
                return Best {
                    total: v.total,
                    ports: v.ports | (1u64 << (q as u32)),
                };
            }
        }
        v
    }

    // Whether port q has the total v.
    fn attains(&self, v: u64, q: usize, below: usize, above: usize) -> bool
        requires port { PortOf self.now q below above }
        requires fact { v ≡ no_total → ⊥ }
        ensures { result ≡ eqb (total_of self.now q below above) v }
    {
        self.opens(below, above)
            && self.sum(q, below, above) == v
            && self.figures.bars[self.row + q] == 0
    }
}

// What the ports of the pad at place r are tried by.
fn trial_of<'a>(
    low: &Table<'a>,
    high: &Table<'a>,
    lists: &Lists,
    figures: &Figures<'a>,
    r: usize,
) -> Trial<'a>
    requires square { Square lists.now }
    requires r_in_bounds { r < length lists.now.order.now }
    ensures { result ≡ trial_of low.now high.now lists.now figures.now r }
{
    Trial {
        low: *low,
        high: *high,
        figures: *figures,
        past: (r + 1) as u8,
        row: usize::from(lists.order[r]) * lists.order.len(),
    }
}

// The best total of the strip a .. b - 1 whose rightmost pad stands at place r, the least over its ports, and the ports that have it.
fn best_ports(
    row: &Table,
    table: &Table,
    lists: &Lists,
    figures: &Figures,
    r: usize,
    a: usize,
    b: usize,
) -> Best
    requires square { Square lists.now }
    requires strip { Strip (sides lists.now) lists.now.order.now a b r }
    requires ready { PartsReady lists.now figures.now row.now table.now a b }
    ensures { BestOf (choice_on lists.now figures.now r a b) a b result }
{
    let trial = trial_of(row, table, lists, figures, r);
    let base = corner(b) + 1;
    let mut v = Best {
        total: NONE,
        ports: 0,
    };
    for q in a..b {
        v = trial.better(v, q, base + q);
    }
    v
}

// The best total of the strip a .. b - 1, and the ports that lead its rightmost pad, which stands at `head`, in a best layout.
pub fn strip_best(
    row: &Table,
    table: &Table,
    lists: &Lists,
    figures: &Figures,
    a: usize,
    b: usize,
    head: Option<usize>,
) -> Best
    requires square { Square lists.now }
    requires a_le_b { (a ≤ b) × (b ≤ length lists.now.order.now) × Head (sides lists.now) lists.now.order.now a b (head_of head) }
    requires ready { PartsReady lists.now figures.now row.now table.now a b }
    ensures valued { Valued (sides lists.now) (figures_of lists.now figures.now) lists.now.order.now a b (head_of head) result.total }
    ensures marks { (result.total ≡ no_total → ⊥) → a < b → Marks (board lists.now figures.now) lists.now.order.now (head_of head - 1) a b
        result.ports }
{
    match head {
        None => Best {
            total: NONE,
            ports: 0,
        },
        Some(_) if a == b => Best { total: 0, ports: 0 },
        Some(r) => best_ports(row, table, lists, figures, r, a, b),
    }
}

// The same total alone.
// Stays: compiled into its caller, the loop does no work for ports that are not asked for.
pub fn strip_total(
    row: &Table,
    table: &Table,
    lists: &Lists,
    figures: &Figures,
    a: usize,
    b: usize,
    head: Option<usize>,
) -> u64
    requires square { Square lists.now }
    requires a_le_b { (a ≤ b) × (b ≤ length lists.now.order.now) × Head (sides lists.now) lists.now.order.now a b (head_of head) }
    requires ready { PartsReady lists.now figures.now row.now table.now a b }
    ensures { Valued (sides lists.now) (figures_of lists.now figures.now) lists.now.order.now a b (head_of head) result }
{
    strip_best(row, table, lists, figures, a, b, head).total
}

// The place of the strip's rightmost pad, as the table has it: none where the strip has no layout.
pub fn kept(head: Option<usize>, v: u64) -> Option<usize>
    ensures { result ≡ cond (eqb v no_total) None head }
{
    if v == NONE { None } else { head }
}

// The smallest port of the strip a .. b - 1, from `from` on, that leads its rightmost pad, at place
// r, in a best layout of the strip.
pub fn next_port(
    table: &Table,
    lists: &Lists,
    figures: &Figures,
    r: usize,
    a: usize,
    b: usize,
    from: usize,
) -> Option<usize>
    requires square { Square lists.now }
    requires table { TableOn lists.now figures.now table.now.heads.now table.now.totals.now }
    requires full { FullOn lists.now figures.now r a b }
    requires a_le_from { (a ≤ from) × (from ≤ b) }
    ensures { MatchOption result (NextPort (LeadsOn lists.now figures.now r a b) from b b) (λ q. NextPort (LeadsOn lists.now figures.now
        r a b) from b q × (q < b)) }
{
    let best = table.totals[corner(b) + a];
    if best == NONE {
        return None;
    }
    let trial = trial_of(table, table, lists, figures, r);
    let base = corner(b) + 1;
    let mut below = corner(from) + a;
    for q in from..b {
        if trial.attains(best, q, below, base + q) {
            return Some(q);
        }
        below += q + 1;
    }
    None
}
