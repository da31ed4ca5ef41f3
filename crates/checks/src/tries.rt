// One check: its refusal names the first record, or the first two, at which a test holds.
ghost use Rattle.std.specs.Prelude.{◌≡◌, ℕ, ◌<◌, Bool};
ghost use Rattle.paper.specs.laws.Tests.{with_earlier, at_each, at_pairs, at_whole};
ghost use Rattle.paper.specs.Reasons.{number_of};
ghost use Rattle.paper.specs.Refusals.{refusal};
ghost use Rattle.checks.specs.Verdicts.{at_record, outcome};

use paper::{Reason, Refusal};

fn refused(reason: Reason, at: u16, earlier: u16) -> Result<(), Refusal>
    ensures { result ≡ Err (refusal (number_of reason) at earlier) }
{
    Err(Refusal::new(reason, at, earlier))
}

// Of the input as a whole.
pub fn whole(reason: Reason, fault: bool) -> Result<(), Refusal>
    ensures { result ≡ outcome (at_whole (number_of reason) fault) }
{
    if fault { refused(reason, 0, 0) } else { Ok(()) }
}

// What a search for a record found.
pub fn at_record(reason: Reason, found: Option<u16>) -> Result<(), Refusal>
    ensures { result ≡ at_record (number_of reason) found }
{
    match found {
        Some(at) => refused(reason, at, 0),
        None => Ok(()),
    }
}

// Of each of n records, or ports.
pub fn each<F: Fn(u16) -> bool>(reason: Reason, n: u16, test: F) -> Result<(), Refusal>
    requires { (i : ℕ) → i < n → F.pre test i }
    ensures { (p : ℕ → Bool) → ((i : ℕ) → i < n → (b : Bool) → F.post test i b → b ≡ p i) → result ≡ outcome (at_each (number_of reason) n p) }
{
    at_record(reason, find::first_where(n, test))
}

// Of each of n records with those before it: the record alone is named.
pub fn stood<F: Fn(u16, u16) -> bool>(reason: Reason, n: u16, same: F) -> Result<(), Refusal>
    requires { (i j : ℕ) → i < n → j < i → F.pre same i j }
    ensures { (q : ℕ → ℕ → Bool) → ((i j : ℕ) → i < n → j < i → (b : Bool) → F.post same i j b → b ≡ q i j) → result ≡ outcome (at_each (number_of reason) n (with_earlier q)) }
{
    match find::first_pair_where(n, same) {
        Some(f) => refused(reason, f.at, 0),
        None => Ok(()),
    }
}

// The same, and the earlier record is named too.
// Stays: a record alone is named by one, both by the other, and a flag for that would be a switch.
pub fn pairs<F: Fn(u16, u16) -> bool>(reason: Reason, n: u16, test: F) -> Result<(), Refusal>
    requires { (i j : ℕ) → i < n → j < i → F.pre test i j }
    ensures { (q : ℕ → ℕ → Bool) → ((i j : ℕ) → i < n → j < i → (b : Bool) → F.post test i j b → b ≡ q i j) → result ≡ outcome (at_pairs (number_of reason) n q) }
{
    match find::first_pair_where(n, test) {
        Some(f) => refused(reason, f.at, f.earlier),
        None => Ok(()),
    }
}
