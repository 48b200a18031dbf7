// Exchange of two sessions: the tests, the rounds, the answer.
// Their room is lent together, one area of each kind, A's part first, then B's. It rests on parts for where a part ends, on test8 for the tests of one session,
// on rounds, and on room for the numbers of a session.
#![tactic(auto)]

ghost use Rattle.std.specs.Prelude.{◌≡◌, replicate, IfOk, IfErr, OnOk, is_ok};
ghost use Rattle.layout.specs.Sizes.{Lays, in_range, ipv4_layout};
ghost use Rattle.list.specs.Records.{records};
ghost use Rattle.table.specs.Table.{tab};
ghost use Rattle.room.specs.Memory.{memory};
ghost use Rattle.room.specs.Seen.{memory_seen};
ghost use Rattle.rounds.specs.Joined.{seam};
ghost use Rattle.exchange.specs.declared.ExchangeError.TheVariants as errors;
ghost use Rattle.exchange.specs.Passed.{Places, Reaches, Ready, exchanged};
ghost use Rattle.exchange.specs.Exchange.{
  answer_of,
  error_number,
  exchanging,
  exchange_test,
  exchange_of,
  areas_fit,
  room_a,
  room_b,
  seen_in,
};

use ending::{Stopped, Switch};
use hash::Placing;
use layout::{Layout, Shape};
use parts::{Part, Place};
use room::{Room, Session};

// How many flows each session lists after an exchange, and how many keys were answered with 12 in it.
#[derive(Clone, Copy, PartialEq, Eq)]
pub struct Lists {
    pub a: usize,
    pub b: usize,
    pub twelves: usize,
}

// Why an exchange does not begin, or the 14 that ends it: the switch whose session it is in, the marked or ready cell, and what each then lists.
#[derive(Clone, Copy, PartialEq, Eq)]
pub enum ExchangeError {
    NotSession,
    BadRoom,
    OtherSlot,
    Damaged {
        switch: Switch,
        cell: usize,
        lists: Lists,
    },
}

impl ExchangeError {
    // 01's number.
    pub fn number(self) -> u32
        ensures { result ≡ error_number self }
    {
        match self {
            ExchangeError::NotSession => 8,
            ExchangeError::BadRoom => 16,
            ExchangeError::OtherSlot => 15,
            ExchangeError::Damaged { .. } => 14,
        }
    }
}

// The answer of the call.
fn answer_of(ending: Result<(), Stopped>, lists: Lists) -> Result<Lists, ExchangeError>
    ensures { result ≡ answer_of ending lists.a lists.b lists.twelves }
{
    match ending {
        Ok(()) => Ok(lists),
        Err(stopped) => Err(ExchangeError::Damaged {
            switch: stopped.switch,
            cell: stopped.cell,
            lists,
        }),
    }
}

// The rooms of A and of B, which meet at p.
#[tactic(auto, unfolding(crate::specs::Exchange::room_a, crate::specs::Exchange::room_b))]
fn split_room<'a>(room: Room<'a>, p: Place) -> (Room<'a>, Room<'a>)
    requires { Reaches p (memory_seen room) }
    ensures first { memory_seen result.0 ≡ room_a p (memory_seen room.entry) }
    ensures second { memory_seen result.1 ≡ room_b p (memory_seen room.entry) }
{
    let (filter_a, filter_b) = room.filter.split_at(p.filter);
    let (xors_a, xors_b) = room.table.xors.split_at(p.xors);
    let (flows_a, flows_b) = room.table.flows.split_at(p.cells);
    let (unknowns_a, unknowns_b) = room.table.unknowns.split_at(p.cells);
    let (positions_a, positions_b) = room.table.positions.split_at(p.cells);
    let (marks_a, marks_b) = room.table.marks.split_at(p.words);
    let (packets_a, packets_b) = room.packets.split_at(p.cells);
    let (keys_a, keys_b) = room.list.keys.split_at(p.keys);
    let (counts_a, counts_b) = room.list.counts.split_at(p.records);
    let (flags_a, flags_b) = room.list.flags.split_at(p.records);
    let a = Room::new(
        filter_a,
        xors_a,
        flows_a,
        packets_a,
        unknowns_a,
        positions_a,
        marks_a,
        keys_a,
        counts_a,
        flags_a,
    );
    let b = Room::new(
        filter_b,
        xors_b,
        flows_b,
        packets_b,
        unknowns_b,
        positions_b,
        marks_b,
        keys_b,
        counts_b,
        flags_b,
    );
    (a, b)
}

// Whether the areas end where B's part does.
#[tactic(auto, unfolding(crate::specs::Exchange::areas_fit))]
fn areas_fit(e: Place, room: Room<'_>) -> bool
    ensures { result ≡ areas_fit e (memory_seen room.entry) }
{
    room.filter.len() == e.filter
        && room.packets.len() == e.cells
        && room.table.xors.len() == e.xors
        && room.table.flows.len() == e.cells
        && room.table.unknowns.len() == e.cells
        && room.table.positions.len() == e.cells
        && room.table.marks.len() == e.words
        && room.list.keys.len() == e.keys
        && room.list.counts.len() == e.records
        && room.list.flags.len() == e.records
}

// What places a session's keys, where its sizes are in their ranges.
fn placing_of(l: Layout, s: Session) -> Result<Placing, ExchangeError>
    requires { Lays l }
    ensures test { is_ok result ≡ in_range s.sizes }
    ensures placing { IfOk result (λ p. Places l s p) }
    ensures refusal { IfErr result (λ e. e ≡ errors.NotSession) }
{
    let shape = Shape::new(l, s.sizes).ok_or(ExchangeError::NotSession)?;
    Ok(Placing::new(shape, s.salt))
}

// The tests of the call on two sessions whose sizes are in their ranges. Where all are passed, the indexes have got each listed key.
fn test(
    p: Placing,
    q: Placing,
    s: Session,
    t: Session,
    room: Room<'_>,
    seen_a: &mut [u16],
    seen_b: &mut [u16],
) -> Result<(), ExchangeError>
    requires { Places p.shape.layout s p × Places p.shape.layout t q × (seen_a.old ≡ replicate 11264 0) × (seen_b.old ≡ replicate 11264 0) }
    ensures answer { result ≡ exchange_test p.shape.layout s t (memory_seen room.entry) }
    ensures first { OnOk result (seen_a.new ≡ seen_in p.shape.layout s (room_a (seam p.shape.layout s.sizes) (memory_seen room.entry)) (replicate 11264 0)) }
    ensures second { OnOk result (seen_b.new ≡ seen_in p.shape.layout t (room_b (seam p.shape.layout s.sizes) (memory_seen room.entry)) (replicate 11264 0)) }
{
    let seam = Place::origin().after(p.shape);
    if !areas_fit(seam.after(q.shape), room) {
        return Err(ExchangeError::BadRoom);
    }
    let (a, b) = split_room(room, seam);
    if !test8::is_session_seen(p, s.listed, a.table, a.list, seen_a) {
        return Err(ExchangeError::NotSession);
    }
    if !test8::is_session_seen(q, t.listed, b.table, b.list, seen_b) {
        return Err(ExchangeError::NotSession);
    }
    if s.slot != t.slot {
        return Err(ExchangeError::OtherSlot);
    }
    Ok(())
}

// Exchanges the lists of two sessions that passed the tests, of which so many flows are listed. The slices are split here, where both parts are
// used: a function that hands out two structs of `&mut [T]` has no rule for what they leave, and the room above is lent to be read only.
fn exchange_passed(
    p: Placing,
    q: Placing,
    listed_a: usize,
    listed_b: usize,
    filter: &[u8],
    xors: &mut [u8],
    flows: &mut [u16],
    packets: &mut [u32],
    unknowns: &mut [u16],
    positions: &mut [u16],
    marks: &mut [u64],
    keys: &mut [u8],
    counts: &mut [u32],
    flags: &mut [u8],
    seen_a: &mut [u16],
    seen_b: &mut [u16],
) -> Result<Lists, ExchangeError>
    requires { Ready p q listed_a listed_b (memory filter.now
        (tab xors.old flows.old unknowns.old positions.old marks.old)
        packets.old (records keys.old counts.old flags.old)) seen_a.old seen_b.old }
    ensures { exchanging result (memory filter.now
        (tab xors.new flows.new unknowns.new positions.new marks.new)
        packets.new (records keys.new counts.new flags.new))
        ≡ exchanged p q listed_a listed_b (memory filter.now
        (tab xors.old flows.old unknowns.old positions.old marks.old)
        packets.old (records keys.old counts.old flags.old)) seen_a.old seen_b.old }
{
    let seam = Place::origin().after(p.shape);
    let (filter_a, filter_b) = filter.split_at(seam.filter);
    let (xors_a, xors_b) = xors.split_at_mut(seam.xors);
    let (flows_a, flows_b) = flows.split_at_mut(seam.cells);
    let (packets_a, packets_b) = packets.split_at_mut(seam.cells);
    let (unknowns_a, unknowns_b) = unknowns.split_at_mut(seam.cells);
    let (positions_a, positions_b) = positions.split_at_mut(seam.cells);
    let (marks_a, marks_b) = marks.split_at_mut(seam.words);
    let (keys_a, keys_b) = keys.split_at_mut(seam.keys);
    let (counts_a, counts_b) = counts.split_at_mut(seam.records);
    let (flags_a, flags_b) = flags.split_at_mut(seam.records);
    let mut a = Part {
        placing: p,
        listed: listed_a,
        filter: filter_a,
        xors: xors_a,
        flows: flows_a,
        packets: packets_a,
        unknowns: unknowns_a,
        positions: positions_a,
        marks: marks_a,
        keys: keys_a,
        counts: counts_a,
        flags: flags_a,
        seen: seen_a,
    };
    let mut b = Part {
        placing: q,
        listed: listed_b,
        filter: filter_b,
        xors: xors_b,
        flows: flows_b,
        packets: packets_b,
        unknowns: unknowns_b,
        positions: positions_b,
        marks: marks_b,
        keys: keys_b,
        counts: counts_b,
        flags: flags_b,
        seen: seen_b,
    };
    let mut twelves = 0;
    let ending = rounds::exchange_sides(&mut a, &mut b, &mut twelves);
    let lists = Lists {
        a: a.listed,
        b: b.listed,
        twelves,
    };
    answer_of(ending, lists)
}

// Exchanges the lists of two sessions of any layout. The slices are parameters of their own, since the C interface lends them so.
pub fn exchange_in(
    l: Layout,
    s: Session,
    t: Session,
    filter: &[u8],
    xors: &mut [u8],
    flows: &mut [u16],
    packets: &mut [u32],
    unknowns: &mut [u16],
    positions: &mut [u16],
    marks: &mut [u64],
    keys: &mut [u8],
    counts: &mut [u32],
    flags: &mut [u8],
) -> Result<Lists, ExchangeError>
    requires { Lays l }
    ensures { exchanging result (memory filter.now
        (tab xors.new flows.new unknowns.new positions.new marks.new)
        packets.new (records keys.new counts.new flags.new))
        ≡ exchange_of l s t (memory filter.now
        (tab xors.old flows.old unknowns.old positions.old marks.old)
        packets.old (records keys.old counts.old flags.old)) }
{
    let mut seen_a = [0u16; 11264];
    let mut seen_b = [0u16; 11264];
    let room = Room::new(
        filter, xors, flows, packets, unknowns, positions, marks, keys, counts, flags,
    );
    let p = placing_of(l, s)?;
    let q = placing_of(l, t)?;
    test(p, q, s, t, room, &mut seen_a, &mut seen_b)?;
    exchange_passed(
        p,
        q,
        s.listed,
        t.listed,
        filter,
        xors,
        flows,
        packets,
        unknowns,
        positions,
        marks,
        keys,
        counts,
        flags,
        &mut seen_a,
        &mut seen_b,
    )
}

// Exchanges the lists of two sessions. The slices are parameters of their own, since the C interface lends them so.
pub fn exchange(
    s: Session,
    t: Session,
    filter: &[u8],
    xors: &mut [u8],
    flows: &mut [u16],
    packets: &mut [u32],
    unknowns: &mut [u16],
    positions: &mut [u16],
    marks: &mut [u64],
    keys: &mut [u8],
    counts: &mut [u32],
    flags: &mut [u8],
) -> Result<Lists, ExchangeError>
    ensures { exchanging result (memory filter.now
        (tab xors.new flows.new unknowns.new positions.new marks.new)
        packets.new (records keys.new counts.new flags.new))
        ≡ exchange_of ipv4_layout s t (memory filter.now
        (tab xors.old flows.old unknowns.old positions.old marks.old)
        packets.old (records keys.old counts.old flags.old)) }
{
    exchange_in(
        layout::ipv4(),
        s,
        t,
        filter,
        xors,
        flows,
        packets,
        unknowns,
        positions,
        marks,
        keys,
        counts,
        flags,
    )
}
