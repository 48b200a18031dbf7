// Exchange of two sessions of IPv4 keys, with the found flows of both lent as one slice of records, A's first, then B's.
// It rests on exchange for the call over number slices, on records for the list apart and together, and on calls for how many records
// are taken apart. It makes the arrays itself, as the calls of `calls` do.
#![tactic(auto)]

ghost use Rattle.std.specs.Prelude.{◌≡◌};
ghost use Rattle.table.specs.Table.{tab};
ghost use Rattle.calls.specs.Calls.{lent, called};
ghost use Rattle.pairing.specs.Pairing.{exchange_records};

use exchange::{ExchangeError, Lists};
use records::Record;
use room::Session;

// Exchanges the lists of two sessions.
pub fn exchange(
    s: Session,
    t: Session,
    filter: &[u8],
    xors: &mut [u8],
    flows: &mut [u16],
    packets: &mut [u32],
    unknowns: &mut [u16],
    positions: &mut [u16],
    marks: &mut [u64],
    list: &mut [Record],
) -> Result<Lists, ExchangeError>
    ensures { called result (lent filter.now
        (tab xors.new flows.new unknowns.new positions.new marks.new)
        packets.new list.new)
        ≡ exchange_records s t (lent filter.now
        (tab xors.old flows.old unknowns.old positions.old marks.old)
        packets.old list.old) }
{
    let mut keys = [0u8; 79872];
    let mut counts = [0u32; 6144];
    let mut flags = [0u8; 6144];
    let n = calls::taken_of(6144, records::length_of(list));
    let bytes = n * 13;
    records::take_apart(list, n, &mut keys, &mut counts, &mut flags);
    let answer = exchange::exchange(
        s,
        t,
        filter,
        xors,
        flows,
        packets,
        unknowns,
        positions,
        marks,
        &mut keys[..bytes],
        &mut counts[..n],
        &mut flags[..n],
    );
    records::put_back(list, n, &keys, &counts, &flags);
    answer
}
