// The tests of the refusals at one record, or at two: each computes the test of its name in paper's laws/Tests.antt.
#![tactic(auto)]

mod leader;

ghost use Rattle.std.specs.Prelude.{◌≡◌, ◌≤◌, ◌<◌, ◌-◌, ◌&&◌, ltb, length, pos, ℤ, ◌-ℤ◌};
ghost use Rattle.std.specs.Int.Signed.{mag, lt_z};
ghost use Rattle.paper.specs.Job.{count, last_of, port_of};
ghost use Rattle.paper.specs.Layouts.{held, leader};
ghost use Rattle.paper.specs.Refusals.{work_needed, buffer_needed};
ghost use Rattle.paper.specs.laws.Tests.{bad_size, bad_weight, bad_table, outside, bad_last, bad_field, bad_height, not_above, too_close, same_name, same_x, between, leaders_touch, meets, meets_large, records_touch, bad_number};
ghost use Rattle.job.specs.Board.{board_on, pads_on, ports_on};
ghost use Rattle.faults.specs.Drawn.{leader_of, square_of};

use job::Job;
use leader::Leader;
use paper::{Form, Weights};

// 1: the byte count, of records of so many bytes.
pub fn bad_size(one: usize, most: usize, bytes: &[u8]) -> bool
    requires { 0 < one }
    ensures { result ≡ bad_size one most bytes.now }
{
    (bytes.len() == 0) | (bytes.len() % one != 0) | (most < bytes.len())
}

// 24: the work list's length, for so many pads and ports.
pub fn short_work(n: usize, p: usize, numbers: usize) -> bool
    requires { (n ≤ 64) × (p ≤ 128) }
    ensures { result ≡ ltb numbers (work_needed n p) }
{
    numbers < 2 * ((n + 1) * ((p + 2) * (p + 2)))
}

// 18: the length of the buffer of Count and Place, for so many pads.
pub fn short_buffer(n: usize, numbers: usize) -> bool
    requires { n ≤ 64 }
    ensures { result ≡ ltb numbers (buffer_needed n) }
{
    numbers < 2 * ((n + 2) * (n + 2))
}

// 2: the weights.
pub fn bad_weight(w: Weights) -> bool
    ensures { result ≡ bad_weight w.length w.bend }
{
    (1000 < w.length) | (1000 < w.bend)
}

// 13: the table's length. Of a job of any size the product n * p could wrap, a quotient and a remainder cannot.
pub fn bad_table(job: &Job, figures: usize) -> bool
    ensures { result ≡ bad_table (pads_on job.now) (ports_on job.now) figures }
{
    let n = job.pads.len() / 16;
    let p = match job.form {
        Form::Records => job.ports.len() / 16,
        Form::Slots => job.ports.len() / 4,
    };
    if n == 0 {
        figures != 0
    } else {
        (figures / n != p) | (figures % n != 0)
    }
}

// 4: the fields of record i.
#[tactic(auto, unfolding(paper::specs::laws::Tests::outside))]
fn out_of_range(h: i64) -> bool
    ensures { result ≡ outside h }
{
    (h < -1000000) | (1000000 < h)
}

// The last field: a port's height, or 0.
#[tactic(auto, unfolding(paper::specs::Job::port_of, paper::specs::Job::last_of))]
fn bad_last(job: &Job, i: u16) -> bool
    requires { i < pads_on job.now }
    ensures { result ≡ bad_last job.now.form (last_of job.now.pads.now i) }
{
    match job.form {
        Form::Records => out_of_range(Job::of_records(job.pads).port(i)),
        Form::Slots => job.last(i) != 0,
    }
}

pub fn bad_field(job: &Job, i: u16) -> bool
    requires { i < pads_on job.now }
    ensures { result ≡ bad_field job.now.form job.now.pads.now i }
{
    let x = job.x(i);
    (job.name(i) == 0)
        | (2000 < job.half_side(i))
        | (x < 1)
        | (1000000 < x)
        | out_of_range(job.y(i))
        | bad_last(job, i)
}

// 4: the height of port q.
pub fn bad_height(job: &Job, q: u16) -> bool
    requires { q < ports_on job.now }
    ensures { result ≡ bad_height job.now.form job.now.ports.now q }
{
    out_of_range(job.port(q))
}

// Whether port q stands less than so much above the one before.
fn rises_less(job: &Job, q: u16, least: i64) -> bool
    requires { q < ports_on job.now }
    ensures { result ≡ (ltb 0 q && lt_z (port_of job.now.form job.now.ports.now q -ℤ port_of job.now.form job.now.ports.now (q - 1)) least) }
{
    q != 0 && job.port(q) - job.port(q - 1) < least
}

// 5 and 12: port q's height against the one before.
pub fn not_above(job: &Job, q: u16) -> bool
    requires { q < ports_on job.now }
    ensures { result ≡ not_above job.now.form job.now.ports.now q }
{
    rises_less(job, q, 1)
}

pub fn too_close(job: &Job, q: u16) -> bool
    requires { q < ports_on job.now }
    ensures { result ≡ too_close job.now.form job.now.ports.now q }
{
    rises_less(job, q, 8)
}

// 6, 7: records i and j.
pub fn same_name(job: &Job, i: u16, j: u16) -> bool
    requires { (i < pads_on job.now) × (j < pads_on job.now) }
    ensures { result ≡ same_name job.now.pads.now i j }
{
    job.name(i) == job.name(j)
}

pub fn same_x(job: &Job, i: u16, j: u16) -> bool
    requires { (i < pads_on job.now) × (j < pads_on job.now) }
    ensures { result ≡ same_x job.now.pads.now i j }
{
    job.x(i) == job.x(j)
}

// 9: the leader of record i, to the port that the list has for it.
fn leader_at(job: &Job, list: &[u16], i: u16) -> Leader
    requires { (i < pads_on job.now) × (i < length list.now) × (held list.now i < ports_on job.now) }
    ensures { leader_of result ≡ leader (board_on job.now) i (held list.now i) }
{
    Leader {
        x: job.x(i),
        y: job.y(i),
        port: job.port(list[usize::from(i)]),
    }
}

// Whether m lies between a and b: the order of m and a leaves one test with b, or none.
#[tactic(auto, unfolding(paper::specs::laws::Tests::between))]
fn lies_between(m: i64, a: i64, b: i64) -> bool
    ensures { result ≡ between m a b }
{
    if m < a {
        b <= m
    } else if a < m {
        m <= b
    } else {
        true
    }
}

// x says which arm passes the other pad: one test is enough.
#[tactic(auto, unfolding(paper::specs::laws::Tests::leaders_touch))]
fn leaders_touch(l: &Leader, m: &Leader) -> bool
    ensures { result ≡ leaders_touch (leader_of l.now) (leader_of m.now) }
{
    if m.x < l.x {
        lies_between(l.port, m.y, m.port)
    } else if l.x < m.x {
        lies_between(m.port, l.y, l.port)
    } else {
        false
    }
}

// A leader and the square of a half-side around another's pad: the arm alone can meet it where the hand is right of it.
fn meets(l: &Leader, m: &Leader, half: u16) -> bool
    ensures { result ≡ meets (leader_of l.now) (square_of m.now half) }
{
    let x = u64::from(l.x);
    let x2 = u64::from(m.x);
    let reach = u64::from(half);
    if x + reach < x2 {
        return false;
    }
    let side = i64::from(half);
    let top = m.y + side;
    let bottom = m.y - side;
    if x2 + reach < x {
        (l.port <= top) & (bottom <= l.port)
    } else {
        ((l.port <= top) | (l.y <= top)) & ((bottom <= l.port) | (bottom <= l.y))
    }
}

// The same where the square is more than a point.
#[tactic(auto, unfolding(paper::specs::laws::Tests::meets_large))]
fn meets_large(l: &Leader, m: &Leader, half: u16) -> bool
    ensures { result ≡ meets_large (leader_of l.now) (square_of m.now half) }
{
    half != 0 && meets(l, m, half)
}

// Records i and j: their leaders, and the leader of each with the square of the other.
pub fn touches(job: &Job, list: &[u16], i: u16, j: u16) -> bool
    requires i_bound { (i < pads_on job.now) × (i < length list.now) × (held list.now i < ports_on job.now) }
    requires j_bound { (j < pads_on job.now) × (j < length list.now) × (held list.now j < ports_on job.now) }
    ensures { result ≡ records_touch (board_on job.now) (held list.now) i j }
{
    let l = leader_at(job, list, i);
    let m = leader_at(job, list, j);
    leaders_touch(&l, &m)
        || meets_large(&l, &m, job.half_side(j))
        || meets_large(&m, &l, job.half_side(i))
}

// 11: Draw's record number and port number.
pub fn bad_number(job: &[u8], i: u32, q: u32) -> bool
    ensures { result ≡ bad_number (count job.now) i q }
{
    let n = job.len() / 16;
    // Stays: no From makes a usize of a u32.
    (n <= i as usize) | (n <= q as usize)
}
