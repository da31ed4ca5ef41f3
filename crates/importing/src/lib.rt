// The call ReadCsv: a list of pads as text is read into room of its own, checked there, and copied to the lent bytes if nothing is refused.
#![tactic(auto)]

ghost use Rattle.std.specs.Prelude.{◌≡◌, ◌≤◌, length};
ghost use Rattle.paper.specs.Promises.{CsvAnswers};
ghost use Rattle.importing.specs.Made.{MadeIs};

use checks::verdicts;
use paper::{Counted, Reason, Refusal};

// n pads, of which the records are made: checked, and copied.
fn checked(made: &[u8], n: u16, pads: &mut [u8]) -> Counted
    requires { 1024 ≤ length made.now }
    ensures { MadeIs made.now n pads.old result pads.new }
{
    verdicts::of_list(made, n, pads.len())?;
    let bytes = 16 * usize::from(n);
    pads[..bytes].copy_from_slice(&made[..bytes]);
    Ok(u64::from(n))
}

// A text of any length.
pub fn read(text: &[u8], pads: &mut [u8]) -> Counted
    ensures { CsvAnswers text.now pads.old result pads.new }
{
    if 16384 < text.len() {
        return Err(Refusal::of_whole(Reason::CsvTooLong));
    }
    // Stays: no call allocates, so there is room for 64 records, whatever the text has.
    let mut made = [0u8; 1024];
    let n = padlist::lines(text, &mut made).map_err(|bad| Refusal::new(
        Reason::BadLine,
        bad.line,
        0,
    ))?;
    checked(&made, n, pads)
}
