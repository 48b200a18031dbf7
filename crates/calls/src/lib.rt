// The calls on a single-switch session of IPv4 keys, with the found flows lent as a slice of records: open, hand-over, settle, report.
// It rests on session for the calls over number slices and on records for the list apart and together. A call takes the list apart once,
// runs over the numbers, and puts the list together once. Its arrays have room for 3,072 records, as 2 N is at most that, and a key has 13 bytes. Each
// call makes the three itself: a struct of them with const parameters would need the length of the key bytes beside the number of records, since a const
// argument is not computed, and a function that makes one would hand out 55 KB by value.
#![tactic(auto)]

ghost use Rattle.std.specs.Prelude.{◌≡◌, ◌≤◌};
ghost use Rattle.table.specs.Table.{tab};
ghost use Rattle.calls.specs.Calls.{lent, called, settle_records, hand_records, open_records, report_records, taken};

use opening::OpenError;
use packet::Key;
use records::Record;
use room::Session;
use session::{HandOverError, SessionError, SettleError};
use summary::Report;

// How many of n records are taken apart into arrays for at most so many. A list that is longer than any sizes ask for is passed on as an empty
// one, which is as wrong.
#[tactic(auto, unfolding(crate::specs::Calls::taken))]
pub fn taken_of(most: usize, n: usize) -> usize
    ensures value { result ≡ taken most n }
    ensures few { result ≤ most }
    ensures inside { result ≤ n }
{
    if n <= most {
        return n;
    }
    0
}

// Reports.
pub fn report(
    s: Session,
    filter: &[u8],
    xors: &[u8],
    flows: &[u16],
    packets: &[u32],
    unknowns: &[u16],
    positions: &[u16],
    marks: &[u64],
    list: &[Record],
) -> Result<Report, SessionError>
    ensures { result ≡ report_records s (lent filter.now
        (tab xors.now flows.now unknowns.now positions.now marks.now)
        packets.now list.now) }
{
    let mut keys = [0u8; 39936];
    let mut counts = [0u32; 3072];
    let mut flags = [0u8; 3072];
    let n = taken_of(3072, records::length_of(list));
    let bytes = n * 13;
    records::take_apart(list, n, &mut keys, &mut counts, &mut flags);
    session::report(
        s,
        filter,
        xors,
        flows,
        packets,
        unknowns,
        positions,
        marks,
        &keys[..bytes],
        &counts[..n],
        &flags[..n],
    )
}

// Settles.
pub fn settle(
    s: Session,
    filter: &[u8],
    xors: &mut [u8],
    flows: &mut [u16],
    packets: &mut [u32],
    unknowns: &mut [u16],
    positions: &mut [u16],
    marks: &mut [u64],
    list: &mut [Record],
) -> Result<usize, SettleError>
    ensures { called result (lent filter.now
        (tab xors.new flows.new unknowns.new positions.new marks.new)
        packets.new list.new)
        ≡ settle_records s (lent filter.now
        (tab xors.old flows.old unknowns.old positions.old marks.old)
        packets.old list.old) }
{
    let mut keys = [0u8; 39936];
    let mut counts = [0u32; 3072];
    let mut flags = [0u8; 3072];
    let n = taken_of(3072, records::length_of(list));
    let bytes = n * 13;
    records::take_apart(list, n, &mut keys, &mut counts, &mut flags);
    let answer = session::settle(
        s,
        filter,
        xors,
        flows,
        packets,
        unknowns,
        positions,
        marks,
        &mut keys[..bytes],
        &mut counts[..n],
        &mut flags[..n],
    );
    records::put_back(list, n, &keys, &counts, &flags);
    answer
}

// Hands a key over.
pub fn hand_over(
    s: Session,
    key: Key,
    filter: &[u8],
    xors: &mut [u8],
    flows: &mut [u16],
    packets: &[u32],
    unknowns: &mut [u16],
    positions: &mut [u16],
    marks: &mut [u64],
    list: &mut [Record],
) -> Result<usize, HandOverError>
    ensures { called result (lent filter.now
        (tab xors.new flows.new unknowns.new positions.new marks.new)
        packets.now list.new)
        ≡ hand_records s key (lent filter.now
        (tab xors.old flows.old unknowns.old positions.old marks.old)
        packets.now list.old) }
{
    let mut keys = [0u8; 39936];
    let mut counts = [0u32; 3072];
    let mut flags = [0u8; 3072];
    let n = taken_of(3072, records::length_of(list));
    let bytes = n * 13;
    records::take_apart(list, n, &mut keys, &mut counts, &mut flags);
    let answer = session::hand_over(
        s,
        key,
        filter,
        xors,
        flows,
        packets,
        unknowns,
        positions,
        marks,
        &mut keys[..bytes],
        &mut counts[..n],
        &mut flags[..n],
    );
    records::put_back(list, n, &keys, &counts, &flags);
    answer
}

// Opens an image that is wanted of a slot.
pub fn open(
    image: &[u8],
    slot: u32,
    filter: &mut [u8],
    xors: &mut [u8],
    flows: &mut [u16],
    packets: &mut [u32],
    unknowns: &mut [u16],
    positions: &mut [u16],
    marks: &mut [u64],
    list: &mut [Record],
) -> Result<Session, OpenError>
    ensures { called result (lent filter.new
        (tab xors.new flows.new unknowns.new positions.new marks.new)
        packets.new list.new)
        ≡ open_records image.now slot (lent filter.old
        (tab xors.old flows.old unknowns.old positions.old marks.old)
        packets.old list.old) }
{
    let mut keys = [0u8; 39936];
    let mut counts = [0u32; 3072];
    let mut flags = [0u8; 3072];
    let n = taken_of(3072, records::length_of(list));
    let bytes = n * 13;
    records::take_apart(list, n, &mut keys, &mut counts, &mut flags);
    let answer = session::open(
        image,
        slot,
        filter,
        xors,
        flows,
        packets,
        unknowns,
        positions,
        marks,
        &mut keys[..bytes],
        &mut counts[..n],
        &mut flags[..n],
    );
    records::put_back(list, n, &keys, &counts, &flags);
    answer
}
