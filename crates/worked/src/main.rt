// Runs the calls on the cases that standard input has as text, and prints each with its answer and the list that the call leaves. A case reads
//     TITLE: A B [SIZE] | NAME X Y PORT, NAME X Y PORT, .. | ENTRY ENTRY ..;
// NAME is the record's first word: the name, and 65,536 times the half-side.
// The title's first letter tells the call: First, Next or Measure with the weights A and B; A page with these, of eight entries lent, each 9; Draw of
// record A to port B, with eight numbers lent, each 99; or Print, the job's sheet. SIZE is the job's size in bytes where it is not 16 for each record.
// With a small letter, first, next or measure is by a table, whose figures stand in place of A, B and SIZE; and slots, then and untouching are First,
// Next and Measure on slots, whose heights stand in place of SIZE.
#![tactic(auto)]

ghost use Rattle.std.specs.Prelude.{◌*◌, ◌<◌, ◌≤◌, length, IfOk};

use paper::{Answer, Badness, Polyline, Refusal, Weights};
use std::io::Write;
use std::{fmt, io};

// The number that begins with a digit or a minus, in two's complement if negative, and what follows its digits, of which a minus may have none. Of more than
// 32 bits the lowest 32 count.
fn number(first: u8, text: &[u8]) -> (u32, &[u8])
    ensures { length result.1.now ≤ length text.now }
{
    let end = text
        .iter()
        .position(|b| !b.is_ascii_digit())
        .unwrap_or(text.len());
    let minus = first == b'-';
    let mut n = if minus {
        0
    } else {
        u32::from(first.wrapping_sub(b'0'))
    };
    for digit in &text[..end] {
        n = n
            .wrapping_mul(10)
            .wrapping_add(u32::from(digit.wrapping_sub(b'0')));
    }
    (if minus { n.wrapping_neg() } else { n }, &text[end..])
}

// The numbers of a part of a case, as many as there is room for. Any other byte stands between numbers.
// Stays: a number says where it ends, so no iterator cuts the part: a split took three times the instructions where bytes stand between numbers.
fn read_numbers<'a>(part: &[u8], out: &'a mut [u32]) -> &'a [u32]
    ensures { length result.now ≤ length out.entry.now }
{
    let mut count = 0;
    let mut rest = part;
    while let Some(start) = rest.iter().position(|b| b.is_ascii_digit() || *b == b'-') {
        let (n, after) = number(rest[start], &rest[start + 1..]);
        if count < out.len() {
            out[count] = n;
            count += 1;
        }
        rest = after;
    }
    &out[..count]
}

// The words as bytes, the lowest first: a record is four words.
fn pack(words: &[u32], bytes: &mut [u8])
    requires { 4 * length words.now ≤ length bytes.old }
{
    for (k, word) in words.iter().enumerate() {
        bytes[4 * k..4 * k + 4].copy_from_slice(&word.to_le_bytes());
    }
}

// The words as entries of a list.
fn narrow(words: &[u32], list: &mut [u16]) {
    for (entry, word) in list.iter_mut().zip(words) {
        *entry = (*word % 65536) as u16;
    }
}

// A refusal in words: 9 has two records. Each piece of what is printed is a write, so no word stands alone.
#[derive(Clone, Copy)]
struct Refused(Refusal);

impl fmt::Display for Refused {
    fn fmt<W: fmt::Write>(&self, f: &mut fmt::Formatter<W>) -> fmt::Result {
        let Refusal {
            reason,
            at,
            earlier,
        } = self.0;
        write!(f, " = refused {reason} record {at}")?;
        if reason == 9 {
            write!(f, " with {earlier}")?;
        }
        Ok(())
    }
}

// Entries or drawn numbers in brackets, and the line's end. -0 would show as such.
#[derive(Clone, Copy)]
struct Row<'a, T>(&'a [T]);

impl<T: fmt::Display> fmt::Display for Row<'_, T> {
    fn fmt<W: fmt::Write>(&self, f: &mut fmt::Formatter<W>) -> fmt::Result {
        write!(f, " [")?;
        let mut rest = self.0.iter();
        if let Some(x) = rest.next() {
            write!(f, "{x}")?;
        }
        for x in rest {
            write!(f, ", {x}")?;
        }
        write!(f, "]\n")
    }
}

fn say_answer<W: Write>(out: &mut W, answer: Answer, list: &[u16]) -> io::Result<()> {
    match answer {
        Ok(Some(total)) => write!(out, " = total {total}")?,
        Ok(None) => write!(out, " = end")?,
        Err(refusal) => write!(out, "{}", Refused(refusal))?,
    }
    write!(out, "{}", Row(list))
}

// Page, with its layouts and the entries after them.
fn paged<W: Write>(out: &mut W, job: &[u8], bad: Badness, list: &[u16]) -> io::Result<()> {
    let mut page = [9u16; 8];
    match calls::page(job, bad, list, &mut page) {
        Ok(count) => write!(out, " = layouts {count}")?,
        Err(refusal) => write!(out, "{}", Refused(refusal))?,
    }
    write!(out, "{}", Row(&page))
}

// Draw, with its points and the places after them.
fn drawn<W: Write>(out: &mut W, job: &[u8], i: u32, q: u32) -> io::Result<()> {
    let mut points = [99.0f32; 8];
    match calls::draw(job, i, q, &mut points) {
        Ok(Polyline::Straight { .. }) => write!(out, " = 2 points")?,
        Ok(Polyline::Bent { .. }) => write!(out, " = 3 points")?,
        Err(refusal) => write!(out, "{}", Refused(refusal))?,
    }
    write!(out, "{}", Row(&points))
}

fn printed<W: Write>(out: &mut W, job: &[u8]) -> io::Result<()> {
    let mut text = [0u8; 5424];
    let end = printed::sheet(job, &mut text);
    out.write_all(b" =\n")?;
    out.write_all(&text[..end])
}

// The calls on slots, with a work list that holds something. The heights stand after the two weights.
fn slotted<W: Write>(
    out: &mut W,
    call: u8,
    pads: &[u8],
    weights: Weights,
    heights: &[u32],
    list: &mut [u16],
) -> io::Result<()>
    requires { length heights.now ≤ 10 }
{
    let mut bytes = [0u8; 40];
    pack(heights, &mut bytes);
    let ports = &bytes[..4 * heights.len()];
    let mut work = [4611686018427387904u64; 1024];
    let answer = match call {
        b't' => calls::slotted::next(pads, ports, weights, list, &mut work),
        b'u' => calls::slotted::measure(pads, ports, weights, list),
        _ => calls::slotted::first(pads, ports, weights, list, &mut work),
    };
    say_answer(out, answer, list)
}

// The call that a letter tells, with these numbers.
fn run<W: Write>(
    out: &mut W,
    call: u8,
    job: &[u8],
    numbers: &[u32],
    list: &mut [u16],
) -> io::Result<()>
    requires { length numbers.now ≤ 10 }
{
    let (a, b) = match numbers {
        [a, b, ..] => (*a, *b),
        [a] => (*a, 0),
        [] => (0, 0),
    };
    let weights = Weights { length: a, bend: b };
    let bad = match call {
        b'f' | b'n' | b'm' => Badness::Table(numbers),
        _ => Badness::Weights(weights),
    };
    let answer = match call {
        b's' | b't' | b'u' => {
            return match numbers.get(2..) {
                Some(heights) => slotted(out, call, job, weights, heights, list),
                None => Ok(()),
            };
        }
        b'D' => return drawn(out, job, a, b),
        b'P' => return printed(out, job),
        b'A' => return paged(out, job, bad, list),
        b'N' | b'n' => calls::next(job, bad, list),
        b'M' | b'm' => calls::measure(job, bad, list),
        _ => calls::first(job, bad, list),
    };
    say_answer(out, answer, list)
}

// The job's size in bytes: what the case says, which it does not beside a table, or four for each word.
fn size_of(call: u8, said: Option<&u32>, words: usize) -> usize
    requires { words ≤ 280 }
    ensures { result ≤ 16384 }
{
    match said {
        Some(size) if call <= b'Z' && *size <= 16384 => *size as usize,
        _ => 4 * words,
    }
}

// The call on a job of these words and a list of these entries. Its room is made before all else: what stands before a list is made would have it cleared twice.
fn run_on<W: Write>(
    out: &mut W,
    call: u8,
    numbers: &[u32],
    records: &[u32],
    entries: &[u32],
) -> io::Result<()>
    requires { (length numbers.now ≤ 10) × (length records.now ≤ 280) × (length entries.now ≤ 80) }
{
    let mut job = [0u8; 16384];
    let mut list = [0u16; 80];
    pack(records, &mut job);
    narrow(entries, &mut list);
    let size = size_of(call, numbers.get(2), records.len());
    run(out, call, &job[..size], numbers, &mut list[..entries.len()])
}

// A part of a text up to a mark, and what follows the mark.
fn part(text: &[u8], mark: u8) -> (&[u8], &[u8])
    ensures { (length result.1.now ≤ length text.now) × (0 < length text.now → length result.1.now < length text.now) }
{
    match text.iter().position(|b| *b == mark) {
        Some(end) => (&text[..end], &text[end + 1..]),
        None => (text, &[]),
    }
}

// Runs the case that a text begins with, and answers what follows it. Of a last one with no mark at its end a byte is not printed.
fn case<'a, W: Write>(out: &mut W, text: &'a [u8]) -> io::Result<&'a [u8]>
    requires { 1 ≤ length text.now }
    ensures { IfOk result (λ rest. length rest.now < length text.now) }
{
    let mut room = [0u32; 10];
    let mut words = [0u32; 280];
    let mut list = [0u32; 80];
    let (_, parts) = part(text, b':');
    let (numbers, parts) = part(parts, b'|');
    let (records, parts) = part(parts, b'|');
    let (entries, rest) = part(parts, b';');
    let numbers = read_numbers(numbers, &mut room);
    let records = read_numbers(records, &mut words);
    let entries = read_numbers(entries, &mut list);
    out.write_all(&text[..text.len() - rest.len() - 1])?;
    run_on(out, text[0], numbers, records, entries)?;
    Ok(rest)
}

// Stays: where a case ends is known once it is read, so no iterator cuts the text.
fn run_all<W: Write>(out: &mut W, text: &[u8]) -> io::Result<()> {
    let mut rest = text;
    while let [first, after @ ..] = rest {
        rest = if *first <= b' ' {
            after
        } else {
            case(out, rest)?
        };
    }
    Ok(())
}

fn main(rt: HostRuntime) -> io::Result<()> {
    let mut text = [0u8; 16384];
    let n = streams::read_full(&mut rt.reader(), &mut text)?;
    run_all(&mut io::writer(&rt), &text[..n])
}
