// The report of a session: what is listed, counted and open, worked out anew from list and cells, and the state that they and what is left make.
// It rests on test8, which counts flags and open cells, and on fields for FlowXOR.
#![tactic(auto)]

ghost use Rattle.std.specs.Prelude.{◌≡◌, ◌≤◌, length};
ghost use Rattle.laws.specs.Zeros.{all_zero};
ghost use Rattle.summary.specs.Report.{nothing_left, state_of, report_of};

// Stuck where a cell is open; else short where an unknown count remains; else stray where something is left in a cell; else whole.
#[derive(Clone, Copy)]
pub enum State {
    Stuck,
    Short,
    Stray,
    Whole,
}

#[derive(Clone, Copy)]
pub struct Report {
    pub listed: usize,
    pub counted: usize,
    pub opens: usize,
    pub state: State,
}

// Whether every PacketCount is zero; as `fields::is_zero` asks it of bytes. One function over both would need a trait of ours that sees an element as a
// number, with a law of `|` and two impls: longer than the two. They are ORed together: a way out at the first other one would cost a branch for each.
fn no_packet(packets: &[u32]) -> bool
    ensures { result ≡ all_zero packets.now }
{
    let mut any = 0;
    for count in packets {
        any |= *count;
    }
    any == 0
}

// Whether nothing is left in FlowXOR and PacketCount of any cell.
#[tactic(auto, unfolding(crate::specs::Report::nothing_left))]
fn nothing_left(xors: &[u8], packets: &[u32]) -> bool
    ensures { result ≡ nothing_left xors.now packets.now }
{
    fields::is_zero(xors) && no_packet(packets)
}

// The state that open cells, unknown counts and what is left make. Only where it decides are the cells asked what is left.
fn state_of(opens: usize, unknown: usize, xors: &[u8], packets: &[u32]) -> State
    ensures { result ≡ state_of opens unknown (nothing_left xors.now packets.now) }
{
    if opens > 0 {
        State::Stuck
    } else if unknown > 0 {
        State::Short
    } else if nothing_left(xors, packets) {
        State::Whole
    } else {
        State::Stray
    }
}

// The report where n flows are listed: of their flags and of every cell's FlowXOR, FlowCount and PacketCount.
#[tactic(auto, unfolding(crate::specs::Report::report_of, crate::specs::Report::counted_in))]
pub fn report_of(n: usize, xors: &[u8], flows: &[u16], packets: &[u32], flags: &[u8]) -> Report
    requires { n ≤ length flags.now }
    ensures { result ≡ report_of n xors.now flows.now packets.now flags.now }
{
    let counted = test8::flagged_in(n, test8::KNOWN, flags);
    let opens = test8::open_in(flows);
    Report {
        listed: n,
        counted,
        opens,
        state: state_of(opens, n - counted, xors, packets),
    }
}
