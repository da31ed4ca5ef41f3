// A job's bytes, read as numbers. The fields are those of paper's Job.antt; record numbers and port numbers are 16 bits wide.
#![tactic(auto)]

ghost use Rattle.std.specs.Prelude.{◌≡◌, ◌+◌, ◌*◌, ◌<◌, ◌≤◌, length};
ghost use Rattle.std.specs.Int.Signed.{mag};
ghost use Rattle.paper.specs.Job.{u16_at, u32_at, twos, count, name_of, half_of, x_of, y_of, last_of, stride_of, offset_of, port_count, port_of};
ghost use Rattle.job.specs.Board.{pads_on, ports_on};

use paper::Form;

// The 2 bytes at k as a number.
fn half(bytes: &[u8], k: usize) -> u16
    requires { k + 1 < length bytes.now }
    ensures { result ≡ u16_at bytes.now k }
{
    u16::from_le_bytes([bytes[k], bytes[k + 1]])
}

// The 4 bytes at k as a number.
fn word(bytes: &[u8], k: usize) -> u32
    requires { k + 3 < length bytes.now }
    ensures { result ≡ u32_at bytes.now k }
{
    u32::from_le_bytes([bytes[k], bytes[k + 1], bytes[k + 2], bytes[k + 3]])
}

// The 4 bytes at k as a height, read as two's complement: without a branch, so that it is one load.
fn height(bytes: &[u8], k: usize) -> i64
    requires { k + 3 < length bytes.now }
    ensures { (result ≡ twos (u32_at bytes.now k)) × (mag result < 2147483648) }
{
    i64::from(word(bytes, k).cast_signed())
}

// How many bytes apart ports stand, and where the first one does.
fn stride(form: Form) -> usize
    ensures { (result ≡ stride_of form) × (result ≤ 16) }
{
    match form {
        Form::Records => 16,
        Form::Slots => 4,
    }
}

fn offset(form: Form) -> usize
    ensures { (result ≡ offset_of form) × (result ≤ 12) }
{
    match form {
        Form::Records => 12,
        Form::Slots => 0,
    }
}

// Where port q stands.
fn place_of(form: Form, q: u16) -> usize
    ensures { result ≡ stride_of form * q + offset_of form }
{
    stride(form) * usize::from(q) + offset(form)
}

// A job as a call is given it: its form, the bytes of its pads' records, and the bytes in which its ports stand.
#[derive(Clone, Copy)]
pub struct Job<'a> {
    pub form: Form,
    pub pads: &'a [u8],
    pub ports: &'a [u8],
}

#[tactic(auto, unfolding(paper::specs::Job::name_of, paper::specs::Job::half_of, paper::specs::Job::x_of, paper::specs::Job::y_of, paper::specs::Job::last_of, paper::specs::Job::port_of))]
impl<'a> Job<'a> {
    // Records are their own port list.
    pub fn of_records(bytes: &'a [u8]) -> Job<'a>
        ensures { result ≡ record { form = Form.Records; pads = bytes.entry; ports = bytes.entry } }
    {
        Job {
            form: Form::Records,
            pads: bytes,
            ports: bytes,
        }
    }

    pub fn of_slots(pads: &'a [u8], ports: &'a [u8]) -> Job<'a>
        ensures { result ≡ record { form = Form.Slots; pads = pads.entry; ports = ports.entry } }
    {
        Job {
            form: Form::Slots,
            pads,
            ports,
        }
    }

    // How many records the job has.
    pub fn count(&self) -> u16
        requires { length self.now.pads.now ≤ 65536 }
        ensures { result ≡ pads_on self.now }
    {
        (self.pads.len() / 16) as u16
    }

    // The fields of record i. A height fits 32 bits, so that the difference of two fits 64.
    pub fn name(&self, i: u16) -> u16
        requires { i < pads_on self.now }
        ensures { result ≡ name_of self.now.pads.now i }
    {
        half(self.pads, 16 * usize::from(i))
    }

    pub fn half_side(&self, i: u16) -> u16
        requires { i < pads_on self.now }
        ensures { result ≡ half_of self.now.pads.now i }
    {
        half(self.pads, 16 * usize::from(i) + 2)
    }

    pub fn x(&self, i: u16) -> u32
        requires { i < pads_on self.now }
        ensures { result ≡ x_of self.now.pads.now i }
    {
        word(self.pads, 16 * usize::from(i) + 4)
    }

    pub fn y(&self, i: u16) -> i64
        requires { i < pads_on self.now }
        ensures { (result ≡ y_of self.now.pads.now i) × (mag result < 2147483648) }
    {
        height(self.pads, 16 * usize::from(i) + 8)
    }

    // Its last field, as it stands.
    pub fn last(&self, i: u16) -> u32
        requires { i < pads_on self.now }
        ensures { result ≡ last_of self.now.pads.now i }
    {
        word(self.pads, 16 * usize::from(i) + 12)
    }

    // How many ports the job has.
    pub fn port_count(&self) -> u16
        requires { length self.now.ports.now ≤ 65536 }
        ensures { result ≡ ports_on self.now }
    {
        match self.form {
            Form::Records => (self.ports.len() / 16) as u16,
            Form::Slots => (self.ports.len() / 4) as u16,
        }
    }

    // The height of port q.
    pub fn port(&self, q: u16) -> i64
        requires { q < ports_on self.now }
        ensures { (result ≡ port_of self.now.form self.now.ports.now q) × (mag result < 2147483648) }
    {
        height(self.ports, place_of(self.form, q))
    }
}
