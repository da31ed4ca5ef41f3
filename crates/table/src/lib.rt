// The table of best totals of all strips, for as many ports as pads (at most 64): `heads` and `totals`, as the crate `totals`
// reads them. At a strip's place `ports` gets the ports that lead its rightmost pad in a best layout, binary digit q for port q, as
// far as that list goes: it may have any length, and a caller that needs no ports lends one of no length.
#![tactic(auto)]

ghost use Rattle.std.specs.Prelude.{◌≡◌, ℕ, ◌+◌, ◌*◌, ◌^◌, ◌≤◌, ◌<◌, length, get_or};
ghost use Rattle.pads.specs.Pads.{Head, head_of};
ghost use Rattle.pads.specs.Sides.{sides, Square};
ghost use Rattle.heads.specs.Given.{TalliesOn};
ghost use Rattle.totals.specs.Cell.{Valued};
ghost use Rattle.totals.specs.Lent.{figures_of, least_on, SizesOn, RowsOn, TableOn, PartsReady, MarkedOn};
ghost use Rattle.table.specs.Noted.{Noted};

use heads::Kept;
use pads::Lists;
use totals::{Figures, Table};

// The cells of the row that is filled, at b those of the strip a .. b - 1.
#[derive(Clone, Copy)]
struct Row {
    pub heads: [u8; 65],
    pub totals: [u64; 65],
}

// A head as the table has it: 1 more than the place, or 0.
// Stays: a byte each, since the room is fixed, and an Option takes more.
fn byte_of(head: Option<usize>) -> u8
    requires { head_of head < 256 }
    ensures { result ≡ head_of head }
{
    match head {
        Some(r) => (r + 1) as u8,
        None => 0,
    }
}

// The best total of the strip a .. b - 1, whose rightmost pad stands at `head`; the ports that lead it are noted, as far as that list
// goes.
fn note(
    ports: &mut [u64],
    row: &Table,
    table: &Table,
    lists: &Lists,
    figures: &Figures,
    a: usize,
    b: usize,
    head: Option<usize>,
) -> u64
    requires square { Square lists.now }
    requires a_le_b { (a ≤ b) × (b ≤ length lists.now.order.now) × Head (sides lists.now) lists.now.order.now a b (head_of head) }
    requires ready { PartsReady lists.now figures.now row.now table.now a b }
    ensures valued { Valued (sides lists.now) (figures_of lists.now figures.now) lists.now.order.now a b (head_of head) result }
    ensures noted { Noted lists.now figures.now ports.old ports.new a b (head_of head) result }
{
    let i = totals::corner(b) + a;
    if i < ports.len() {
        let best = totals::strip_best(row, table, lists, figures, a, b, head);
        ports[i] = best.ports;
        best.total
    } else {
        totals::strip_total(row, table, lists, figures, a, b, head)
    }
}

// Fills the row of the strips that start at a, when those that start above a are right.
// Stays: heads and totals are lent for writing, each as a list of its own; who reads them has them as one type.
fn fill_row(
    row: &mut Row,
    heads: &mut [u8],
    totals: &mut [u64],
    ports: &mut [u64],
    kept: &mut Kept,
    lists: &Lists,
    figures: &Figures,
    a: usize,
)
    requires square { Square lists.now }
    requires sizes { SizesOn lists.now figures.now heads.old totals.old }
    requires a_in { a ≤ length lists.now.order.now }
    requires tallies { TalliesOn lists.now kept.old a }
    requires rows { RowsOn lists.now figures.now heads.old totals.old (a + 1) }
    requires marked { MarkedOn lists.now figures.now heads.old ports.old (a + 1) }
    ensures tallies_2 { TalliesOn lists.now kept.new a }
    ensures rows_2 { RowsOn lists.now figures.now heads.new totals.new a }
    ensures marked_2 { MarkedOn lists.now figures.now heads.new ports.new a }
{
    for b in a..lists.order.len() + 1 {
        let head = heads::head(kept, lists, a, b);
        let low = Table {
            heads: &row.heads,
            totals: &row.totals,
        };
        let v = note(
            ports,
            &low,
            &Table { heads, totals },
            lists,
            figures,
            a,
            b,
            head,
        );
        let k = byte_of(totals::kept(head, v));
        let i = totals::corner(b) + a;
        heads[i] = k;
        totals[i] = v;
        row.heads[b] = k;
        row.totals[b] = v;
    }
}

// Each figure is less than 2 ^ 32, which its type says.
fn narrow(cost: &[u32])
    ensures { (i : ℕ) → get_or cost.now i 0 < 2 ^ 32 }
{}

// Fills the tables, from the last row to the first, and answers the best total of all, or the largest u64.
// Stays: the total is a number of the table, which has that for none, since with an Option it takes twice the room.
pub fn fill(
    heads: &mut [u8],
    totals: &mut [u64],
    ports: &mut [u64],
    lists: &Lists,
    figures: &Figures,
) -> u64
    requires square { Square lists.now }
    requires heads_len { (length heads.old ≡ 2145) × (length totals.old ≡ 2145)
        × (length figures.now.cost.now ≡ length lists.now.order.now * length lists.now.order.now)
        × (length figures.now.bars.now ≡ length lists.now.order.now * length lists.now.order.now) }
    ensures table { TableOn lists.now figures.now heads.new totals.new }
    ensures marked_from { MarkedOn lists.now figures.now heads.new ports.new 0 }
    ensures value { result ≡ least_on lists.now figures.now }
{
    narrow(figures.cost);
    // Stays: no call allocates, so the room is that of 64 pads.
    let mut kept = Kept {
        at: [0; 65],
        seen: [0; 65],
        all: [0; 65],
    };
    let mut row = Row {
        heads: [0; 65],
        totals: [0; 65],
    };
    for a in (0..lists.order.len() + 1).rev() {
        heads::enter(&mut kept, lists, a);
        fill_row(&mut row, heads, totals, ports, &mut kept, lists, figures, a);
    }
    totals[totals::corner(lists.order.len())]
}
