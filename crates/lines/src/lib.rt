// The printed lines, written one after the other on a page, which holds a lent buffer and how much of it is written.
// It rests on packet for a key's five numbers and on summary for the report.
#![tactic(auto)]

ghost use Rattle.std.specs.Prelude.{◌≡◌, [], ◌∷◌, length};
ghost use Rattle.lines.specs.Text.{decimal, followed, dotted, endpoint, count_text};
ghost use Rattle.lines.specs.Text.{flow_line, state_text, report_text, head_line, refused_line};
ghost use Rattle.lines.specs.Page.{Adds, Holds, blank};

use packet::Key;
use summary::{Report, State};

// A lent buffer, and how much of it is written, from its start on. The digits of a number are written here and not by `write!`, which says what it wrote
// only where it answers Ok, and of no writer that it does: these lines cannot fail.
#[derive(Drop)]
pub struct Page<'a> {
    out: &'a mut [u8],
    at: usize,
}

impl<'a> Page<'a> {
    // A page on which nothing is written.
    pub fn new(out: &'a mut [u8]) -> Page<'a>
        ensures { result ≡ blank out.entry }
    {
        Page { out, at: 0 }
    }

    // How many bytes are written.
    pub fn written(&self) -> usize
        ensures { result ≡ self.now.at }
    {
        self.at
    }

    // ---- bytes and numbers

    // Writes one byte.
    fn byte(&mut self, b: u8)
        requires { Holds self.old (b ∷ []) }
        ensures { Adds self.old self.new (b ∷ []) }
    {
        self.out[self.at] = b;
        self.at += 1;
    }

    // Writes a run of bytes.
    fn bytes(&mut self, bytes: &[u8])
        requires { Holds self.old bytes.now }
        ensures { Adds self.old self.new bytes.now }
    {
        let end = self.at + bytes.len();
        self.out[self.at..end].copy_from_slice(bytes);
        self.at = end;
    }

    // Writes a number in decimal: what stands before its last digit, and that digit.
    fn decimal(&mut self, n: u64)
        requires { Holds self.old (decimal n) }
        ensures { Adds self.old self.new (decimal n) }
    {
        if 10 <= n {
            self.decimal(n / 10);
        }
        self.byte(b'0' + (n % 10) as u8);
    }

    // Writes a number and the byte after it.
    fn followed(&mut self, n: u64, mark: u8)
        requires { Holds self.old (followed n mark) }
        ensures { Adds self.old self.new (followed n mark) }
    {
        self.decimal(n);
        self.byte(mark);
    }

    // ---- a flow's line

    // Writes an address in dotted decimal.
    fn dotted(&mut self, address: u32)
        requires { Holds self.old (dotted address) }
        ensures { Adds self.old self.new (dotted address) }
    {
        let [first, second, third, fourth] = address.to_be_bytes();
        self.followed(first as u64, b'.');
        self.followed(second as u64, b'.');
        self.followed(third as u64, b'.');
        self.decimal(fourth as u64);
    }

    // Writes an address and its port, a space after each.
    fn endpoint(&mut self, address: u32, port: u16)
        requires { Holds self.old (endpoint address port) }
        ensures { Adds self.old self.new (endpoint address port) }
    {
        self.dotted(address);
        self.byte(b' ');
        self.followed(port as u64, b' ');
    }

    // Writes a count, or a question mark where it is not known.
    fn count(&mut self, count: Option<u32>)
        requires { Holds self.old (count_text count) }
        ensures { Adds self.old self.new (count_text count) }
    {
        match count {
            Some(packets) => self.decimal(packets as u64),
            None => self.byte(b'?'),
        }
    }

    // Writes the line of a flow.
    pub fn flow(&mut self, key: Key, count: Option<u32>)
        requires { Holds self.old (flow_line key count) }
        ensures { Adds self.old self.new (flow_line key count) }
    {
        self.endpoint(key.source, key.sport);
        self.endpoint(key.destination, key.dport);
        self.followed(key.protocol as u64, b' ');
        self.count(count);
        self.byte(b'\n');
    }

    // ---- the first line, and a refusal's

    // Writes what a report says, to the end of the line.
    fn report(&mut self, report: Report)
        requires { Holds self.old (report_text report) }
        ensures { Adds self.old self.new (report_text report) }
    {
        self.followed(report.listed as u64, b' ');
        self.followed(report.counted as u64, b' ');
        self.followed(report.opens as u64, b' ');
        self.bytes(word_of(report.state));
        self.byte(b'\n');
    }

    // Writes the line of slot, salt and report.
    pub fn head(&mut self, slot: u32, salt: u32, report: Report)
        requires { Holds self.old (head_line slot salt report) }
        ensures { Adds self.old self.new (head_line slot salt report) }
    {
        self.followed(slot as u64, b' ');
        self.followed(salt as u64, b' ');
        self.report(report);
    }

    // Writes the line of a refusal.
    pub fn refused(&mut self, number: u32)
        requires { Holds self.old (refused_line number) }
        ensures { Adds self.old self.new (refused_line number) }
    {
        self.bytes(b"refused ");
        self.followed(number as u64, b'\n');
    }
}

// The word for a state.
fn word_of(state: State) -> &'static [u8]
    ensures { result.now ≡ state_text state }
{
    match state {
        State::Stuck => b"stuck",
        State::Short => b"short",
        State::Stray => b"stray",
        State::Whole => b"whole",
    }
}
