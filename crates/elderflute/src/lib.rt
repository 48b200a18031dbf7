// The library for C and Rust: every call of 01 under a name of its own, over numbers, pointers to a few numbers, and slices.
// Each function makes one call of the crates below, `elderflute_lines` the report and the printed lines, and puts its answer into 01's number and what is
// lent for the rest. It rests on packet, encoder, sealing, reading, session and printing for the calls.
#![tactic(auto)]

ghost use Rattle.std.specs.Prelude.{◌≡◌};
ghost use Rattle.layout.specs.Sizes.{Ranged};
ghost use Rattle.list.specs.Records.{records};
ghost use Rattle.table.specs.Table.{tab};
ghost use Rattle.room.specs.Memory.{memory};
ghost use Rattle.elderflute.specs.Numbers.{version_number, sizes_of, session_of, numbers_of, state_number, figures_of};
ghost use Rattle.elderflute.specs.Flowset.{keying, key_call, working, start_call, packet_call, sealing, seal_call};
ghost use Rattle.elderflute.specs.Images.{ReadSized, OpenSized, read_left, read_leaves, read_call, open_left, open_leaves, opening, open_call};
ghost use Rattle.elderflute.specs.Sessions.{hand_left, hand_leaves, handing, hand_over_call, settle_left, settle_leaves, settling, settle_call};
ghost use Rattle.elderflute.specs.Sessions.{reporting, report_leaves, report_call, printing, print_call, lines_call};
ghost use Rattle.elderflute.specs.Exchanges.{told_of, exchange_left, exchange_leaves, exchanging, exchange_call};

use exchange::{ExchangeError, Lists};
use layout::Sizes;
use opening::OpenError;
use reading::{Image, ReadError};
use room::Session;
use session::{HandOverError, SessionError, SettleError};
use summary::{Report, State};

// ---- the version

// The version of the file VERSION as one number: 1,000,000 times its first number, 1,000 times its second, and its third.
#[unsafe(no_mangle)]
pub extern "C" fn elderflute_version() -> u32
    ensures { result ≡ version_number }
{
    1000
}

// ---- the numbers of a session

fn sizes_of(kf: u32, f: u32, k: u32, q: u32) -> Sizes
    ensures { result ≡ sizes_of kf f k q }
{
    Sizes {
        kf: kf as usize,
        f: f as usize,
        k: k as usize,
        q: q as usize,
    }
}

// The session that six numbers and the number of listed flows are.
fn session_of(numbers: &[u32; 6], listed: usize) -> Session
    ensures { result ≡ session_of numbers.now listed }
{
    let sizes = sizes_of(numbers[0], numbers[1], numbers[2], numbers[3]);
    Session {
        sizes,
        salt: numbers[4],
        slot: numbers[5],
        listed,
    }
}

// Writes the six numbers of an image.
fn put_numbers(numbers: &mut [u32; 6], z: Sizes, salt: u32, slot: u32)
    requires { Ranged z }
    ensures { numbers.new ≡ numbers_of z salt slot }
{
    *numbers = [z.kf as u32, z.f as u32, z.k as u32, z.q as u32, salt, slot];
}

// ---- the key of a packet

// The 13 bytes of the key of a packet that starts at its IPv4 header.
#[unsafe(no_mangle)]
pub extern "C" fn elderflute_key(packet: &[u8], key: &mut [u8; 13]) -> u32
    ensures { keying result key.new ≡ key_call packet.now key.old }
{
    let Some(flow) = packet::key_of(packet) else {
        return 6;
    };
    *key = flow.into();
    0
}

// ---- taking packets

// Clears working memory.
#[unsafe(no_mangle)]
pub extern "C" fn elderflute_start(
    kf: u32,
    f: u32,
    k: u32,
    q: u32,
    filter: &mut [u8],
    cells: &mut [u8],
) -> u32
    ensures { working result filter.new cells.new
        ≡ start_call (sizes_of kf f k q) filter.old cells.old }
{
    match encoder::start(sizes_of(kf, f, k, q), filter, cells) {
        Ok(()) => 0,
        Err(e) => e.number(),
    }
}

// Takes a packet, from its IPv4 header on.
#[unsafe(no_mangle)]
pub extern "C" fn elderflute_packet(
    kf: u32,
    f: u32,
    k: u32,
    q: u32,
    salt: u32,
    filter: &mut [u8],
    cells: &mut [u8],
    packet: &[u8],
) -> u32
    ensures { working result filter.new cells.new
        ≡ packet_call (sizes_of kf f k q) salt packet.now filter.old cells.old }
{
    match encoder::packet(sizes_of(kf, f, k, q), salt, filter, cells, packet) {
        Ok(()) => 0,
        Err(e) => e.number(),
    }
}

// ---- images

// Writes the image of working memory.
#[unsafe(no_mangle)]
pub extern "C" fn elderflute_seal(
    kf: u32,
    f: u32,
    k: u32,
    q: u32,
    salt: u32,
    slot: u32,
    filter: &[u8],
    cells: &[u8],
    image: &mut [u8],
) -> u32
    ensures { sealing result image.new
        ≡ seal_call (sizes_of kf f k q) salt slot filter.now cells.now image.old }
{
    match sealing::seal(sizes_of(kf, f, k, q), salt, slot, filter, cells, image) {
        Ok(()) => 0,
        Err(e) => e.number(),
    }
}

// Writes what reading answers: the six numbers where an image is read.
fn put_reading(
    a: Result<Image, ReadError>,
    slot: u32,
    numbers: &mut [u32; 6],
    block: &mut usize,
) -> u32
    requires { ReadSized a }
    ensures { read_left result numbers.new block.new ≡ read_leaves a slot numbers.old }
{
    match a {
        Ok(i) => {
            put_numbers(numbers, i.sizes, i.salt, slot);
            *block = 0;
            0
        }
        Err(e) => {
            *block = e.block();
            e.number()
        }
    }
}

// Reads an image that is wanted of a slot.
#[unsafe(no_mangle)]
pub extern "C" fn elderflute_read(
    image: &[u8],
    slot: u32,
    numbers: &mut [u32; 6],
    block: &mut usize,
) -> u32
    ensures { read_left result numbers.new block.new ≡ read_call image.now slot numbers.old }
{
    put_reading(reading::read(image, slot), slot, numbers, block)
}

// ---- a session

// Writes what opening answers: the six numbers and that no flow is listed where an image is opened.
fn put_opened(
    a: Result<Session, OpenError>,
    numbers: &mut [u32; 6],
    listed: &mut usize,
    block: &mut usize,
) -> u32
    requires { OpenSized a }
    ensures { open_left result numbers.new listed.new block.new
        ≡ open_leaves a numbers.old listed.old }
{
    match a {
        Ok(s) => {
            put_numbers(numbers, s.sizes, s.salt, s.slot);
            *listed = s.listed;
            *block = 0;
            0
        }
        Err(e) => {
            *block = e.block();
            e.number()
        }
    }
}

// Opens an image that is wanted of a slot.
#[unsafe(no_mangle)]
pub extern "C" fn elderflute_open(
    image: &[u8],
    slot: u32,
    numbers: &mut [u32; 6],
    listed: &mut usize,
    block: &mut usize,
    filter: &mut [u8],
    xors: &mut [u8],
    flows: &mut [u16],
    packets: &mut [u32],
    unknowns: &mut [u16],
    positions: &mut [u16],
    marks: &mut [u64],
    keys: &mut [u8],
    counts: &mut [u32],
    flags: &mut [u8],
) -> u32
    ensures { opening (open_left result numbers.new listed.new block.new) (memory filter.new
        (tab xors.new flows.new unknowns.new positions.new marks.new)
        packets.new (records keys.new counts.new flags.new))
        ≡ open_call image.now slot numbers.old listed.old (memory filter.old
        (tab xors.old flows.old unknowns.old positions.old marks.old)
        packets.old (records keys.old counts.old flags.old)) }
{
    let a = session::open(
        image, slot, filter, xors, flows, packets, unknowns, positions, marks, keys, counts, flags,
    );
    put_opened(a, numbers, listed, block)
}

// Writes what a hand-over answers.
fn put_handed(a: Result<usize, HandOverError>, listed: &mut usize) -> u32
    ensures { hand_left result listed.new ≡ hand_leaves a listed.old }
{
    match a {
        Ok(n) => {
            *listed = n;
            0
        }
        Err(e) => e.number(),
    }
}

// Hands a key over to a session.
#[unsafe(no_mangle)]
pub extern "C" fn elderflute_hand_over(
    numbers: &[u32; 6],
    listed: &mut usize,
    key: &[u8; 13],
    filter: &[u8],
    xors: &mut [u8],
    flows: &mut [u16],
    packets: &[u32],
    unknowns: &mut [u16],
    positions: &mut [u16],
    marks: &mut [u64],
    keys: &mut [u8],
    counts: &mut [u32],
    flags: &mut [u8],
) -> u32
    ensures { handing (hand_left result listed.new) (memory filter.now
        (tab xors.new flows.new unknowns.new positions.new marks.new)
        packets.now (records keys.new counts.new flags.new))
        ≡ hand_over_call numbers.now listed.old key.now (memory filter.now
        (tab xors.old flows.old unknowns.old positions.old marks.old)
        packets.now (records keys.old counts.old flags.old)) }
{
    let s = session_of(numbers, *listed);
    let a = session::hand_over_in(
        layout::ipv4(),
        s,
        key,
        filter,
        xors,
        flows,
        packets,
        unknowns,
        positions,
        marks,
        keys,
        counts,
        flags,
    );
    put_handed(a, listed)
}

// Writes what settling answers; damage found while settling keeps the steps before it.
fn put_settled(a: Result<usize, SettleError>, listed: &mut usize, cell: &mut usize) -> u32
    ensures { settle_left result listed.new cell.new ≡ settle_leaves a listed.old cell.old }
{
    match a {
        Ok(n) => {
            *listed = n;
            0
        }
        Err(e) => {
            if let SettleError::Damaged(d) = e {
                *listed = d.listed;
                *cell = d.cell;
            }
            e.number()
        }
    }
}

// Settles a session.
#[unsafe(no_mangle)]
pub extern "C" fn elderflute_settle(
    numbers: &[u32; 6],
    listed: &mut usize,
    cell: &mut usize,
    filter: &[u8],
    xors: &mut [u8],
    flows: &mut [u16],
    packets: &mut [u32],
    unknowns: &mut [u16],
    positions: &mut [u16],
    marks: &mut [u64],
    keys: &mut [u8],
    counts: &mut [u32],
    flags: &mut [u8],
) -> u32
    ensures { settling (settle_left result listed.new cell.new) (memory filter.now
        (tab xors.new flows.new unknowns.new positions.new marks.new)
        packets.new (records keys.new counts.new flags.new))
        ≡ settle_call numbers.now listed.old cell.old (memory filter.now
        (tab xors.old flows.old unknowns.old positions.old marks.old)
        packets.old (records keys.old counts.old flags.old)) }
{
    let s = session_of(numbers, *listed);
    let a = session::settle(
        s, filter, xors, flows, packets, unknowns, positions, marks, keys, counts, flags,
    );
    put_settled(a, listed, cell)
}

// Writes what each session lists after an exchange, and the answers 12, the switch that stopped it (1 A, 2 B, 0 none) and the cell where it did.
fn put_lists(
    lists: Lists,
    switch: usize,
    cell: usize,
    listed: &mut usize,
    beside: &mut usize,
    told: &mut [usize; 3],
)
    ensures { (listed.new ≡ lists.a) × (beside.new ≡ lists.b) × (told.new ≡ told_of lists.twelves switch cell) }
{
    *listed = lists.a;
    *beside = lists.b;
    *told = [lists.twelves, switch, cell];
}

// Writes what an exchange answers; a 14 keeps the steps before it.
fn put_exchanged(
    x: Result<Lists, ExchangeError>,
    listed: &mut usize,
    beside: &mut usize,
    told: &mut [usize; 3],
) -> u32
    ensures { exchange_left result listed.new beside.new told.new
        ≡ exchange_leaves x listed.old beside.old told.old }
{
    match x {
        Ok(lists) => {
            put_lists(lists, 0, 0, listed, beside, told);
            0
        }
        Err(e) => {
            if let ExchangeError::Damaged {
                switch,
                cell,
                lists,
            } = e
            {
                put_lists(lists, switch.number(), cell, listed, beside, told);
            }
            e.number()
        }
    }
}

// Exchanges the lists of two sessions, whose room is lent joined: of each kind A's part, then B's.
#[unsafe(no_mangle)]
pub extern "C" fn elderflute_exchange(
    first: &[u32; 6],
    listed: &mut usize,
    second: &[u32; 6],
    beside: &mut usize,
    told: &mut [usize; 3],
    filter: &[u8],
    xors: &mut [u8],
    flows: &mut [u16],
    packets: &mut [u32],
    unknowns: &mut [u16],
    positions: &mut [u16],
    marks: &mut [u64],
    keys: &mut [u8],
    counts: &mut [u32],
    flags: &mut [u8],
) -> u32
    ensures { exchanging (exchange_left result listed.new beside.new told.new) (memory filter.now
        (tab xors.new flows.new unknowns.new positions.new marks.new)
        packets.new (records keys.new counts.new flags.new))
        ≡ exchange_call first.now listed.old second.now beside.old told.old
        (memory filter.now
        (tab xors.old flows.old unknowns.old positions.old marks.old)
        packets.old (records keys.old counts.old flags.old)) }
{
    let s = session_of(first, *listed);
    let t = session_of(second, *beside);
    let x = exchange::exchange(
        s, t, filter, xors, flows, packets, unknowns, positions, marks, keys, counts, flags,
    );
    put_exchanged(x, listed, beside, told)
}

// A state as the C interface tells it; no crate below knows these numbers.
fn state_number(s: State) -> usize
    ensures { result ≡ state_number s }
{
    match s {
        State::Whole => 0,
        State::Short => 1,
        State::Stuck => 2,
        State::Stray => 3,
    }
}

// Writes the figures of a report: listed, counted, open, state.
fn put_figures(t: Report, figures: &mut [usize; 4])
    ensures { figures.new ≡ figures_of t }
{
    let s = t.state;
    *figures = [t.listed, t.counted, t.opens, state_number(s)];
}

// Writes what the report answers.
fn put_report(a: Result<Report, SessionError>, figures: &mut [usize; 4]) -> u32
    ensures { reporting result figures.new ≡ report_leaves a figures.old }
{
    match a {
        Ok(t) => {
            put_figures(t, figures);
            0
        }
        Err(e) => e.number(),
    }
}

// Reports on a session.
#[unsafe(no_mangle)]
pub extern "C" fn elderflute_report(
    numbers: &[u32; 6],
    listed: usize,
    figures: &mut [usize; 4],
    filter: &[u8],
    xors: &[u8],
    flows: &[u16],
    packets: &[u32],
    unknowns: &[u16],
    positions: &[u16],
    marks: &[u64],
    keys: &[u8],
    counts: &[u32],
    flags: &[u8],
) -> u32
    ensures { reporting result figures.new ≡ report_call numbers.now listed figures.old (memory filter.now
        (tab xors.now flows.now unknowns.now positions.now marks.now)
        packets.now (records keys.now counts.now flags.now)) }
{
    let s = session_of(numbers, listed);
    let a = session::report(
        s, filter, xors, flows, packets, unknowns, positions, marks, keys, counts, flags,
    );
    put_report(a, figures)
}

// ---- printing

// Writes all that the printing program prints for its standard input.
#[unsafe(no_mangle)]
pub extern "C" fn elderflute_print(input: &[u8], lines: &mut [u8], written: &mut usize) -> u32
    ensures { printing result lines.new written.new
        ≡ print_call input.now lines.old written.old }
{
    if lines.len() != printing::MOST {
        return 16;
    }
    *written = printing::print(input, lines);
    0
}

// Writes the lines of a session as it stands: those that the printing program prints of one that it has settled.
#[unsafe(no_mangle)]
pub extern "C" fn elderflute_lines(
    numbers: &[u32; 6],
    listed: usize,
    lines: &mut [u8],
    written: &mut usize,
    filter: &[u8],
    xors: &[u8],
    flows: &[u16],
    packets: &[u32],
    unknowns: &[u16],
    positions: &[u16],
    marks: &[u64],
    keys: &[u8],
    counts: &[u32],
    flags: &[u8],
) -> u32
    ensures { printing result lines.new written.new
        ≡ lines_call numbers.now listed lines.old written.old (memory filter.now
        (tab xors.now flows.now unknowns.now positions.now marks.now)
        packets.now (records keys.now counts.now flags.now)) }
{
    let s = session_of(numbers, listed);
    if !layout::in_range(s.sizes) {
        return 8;
    }
    if lines.len() != printing::MOST {
        return 16;
    }
    if let Err(e) = session::report(
        s, filter, xors, flows, packets, unknowns, positions, marks, keys, counts, flags,
    ) {
        return e.number();
    }
    *written = printing::put_listed(
        lines, s.slot, s.salt, s.listed, xors, flows, packets, keys, counts, flags,
    );
    0
}
