// The calls on a single-switch session of IPv4 keys, over lent slices: open, hand-over, settle, report. Each answers for every input.
// It rests on opening, handing, settling and summary for what the calls do, and on room and test8 for what they refuse.
// The calls take ten slices and no value of them: `elderflute_open` and the calls of C after it lend them one by one, some to be read alone.
#![tactic(auto)]

ghost use Rattle.std.specs.Prelude.{◌≡◌, ◌≤◌, length, IfOk, OnOk};
ghost use Rattle.layout.specs.Sizes.{Lays, ipv4_layout};
ghost use Rattle.list.specs.Records.{records};
ghost use Rattle.packet.specs.Key.{key_bytes};
ghost use Rattle.table.specs.Table.{tab};
ghost use Rattle.room.specs.Memory.{memory};
ghost use Rattle.room.specs.Seen.{memory_seen};
ghost use Rattle.opening.specs.Open.{opening, open_of};
ghost use Rattle.index.specs.Index.{Empty};
ghost use Rattle.test8.specs.Given.{seen_upto};
ghost use Rattle.session.specs.Errors.{session_number, hand_over_error_number, settle_error_number};
ghost use Rattle.session.specs.declared.HandOverError.TheVariants as over;
ghost use Rattle.session.specs.declared.SettleError.TheVariants as settling;
ghost use Rattle.session.specs.Calls.{test_of, told, handing_to, hand_over, settling_to, settle_of, report_on};

use handing::HandError;
use hash::Placing;
use layout::{Layout, Shape};
use list::Found;
use opening::OpenError;
use packet::Key;
use peeling::Damage;
use room::{Room, Session};
use summary::Report;
use table::Table;

// Why a call on a session does not begin: what is lent is no session, or it has not the right length.
#[derive(Clone, Copy)]
pub enum SessionError {
    NotSession,
    BadRoom,
}

impl SessionError {
    // 01's number.
    pub fn number(self) -> u32
        ensures { result ≡ session_number self }
    {
        match self {
            SessionError::NotSession => 8,
            SessionError::BadRoom => 16,
        }
    }
}

// Why a key is not taken out of a session.
#[derive(Clone, Copy)]
pub enum HandOverError {
    Session(SessionError),
    Hand(HandError),
}

impl From<SessionError> for HandOverError {
    ghost from_gives = { λ e r. r ≡ over.Session e };

    fn from(e: SessionError) -> HandOverError {
        HandOverError::Session(e)
    }
}

impl From<HandError> for HandOverError {
    ghost from_gives = { λ e r. r ≡ over.Hand e };

    fn from(e: HandError) -> HandOverError {
        HandOverError::Hand(e)
    }
}

impl HandOverError {
    // 01's number.
    pub fn number(self) -> u32
        ensures { result ≡ hand_over_error_number self }
    {
        match self {
            HandOverError::Session(e) => e.number(),
            HandOverError::Hand(e) => e.number(),
        }
    }
}

// Why settling did not begin, or where it stopped.
#[derive(Clone, Copy)]
pub enum SettleError {
    Session(SessionError),
    Damaged(Damage),
}

impl From<SessionError> for SettleError {
    ghost from_gives = { λ e r. r ≡ settling.Session e };

    fn from(e: SessionError) -> SettleError {
        SettleError::Session(e)
    }
}

impl From<Damage> for SettleError {
    ghost from_gives = { λ e r. r ≡ settling.Damaged e };

    fn from(e: Damage) -> SettleError {
        SettleError::Damaged(e)
    }
}

impl SettleError {
    // 01's number.
    pub fn number(self) -> u32
        ensures { result ≡ settle_error_number self }
    {
        match self {
            SettleError::Session(e) => e.number(),
            SettleError::Damaged(_) => 14,
        }
    }
}

// Opens an image that is wanted of a slot.
pub fn open(
    image: &[u8],
    slot: u32,
    filter: &mut [u8],
    xors: &mut [u8],
    flows: &mut [u16],
    packets: &mut [u32],
    unknowns: &mut [u16],
    positions: &mut [u16],
    marks: &mut [u64],
    keys: &mut [u8],
    counts: &mut [u32],
    flags: &mut [u8],
) -> Result<Session, OpenError>
    ensures { opening result (memory filter.new
        (tab xors.new flows.new unknowns.new positions.new marks.new)
        packets.new (records keys.new counts.new flags.new))
        ≡ open_of ipv4_layout image.now slot (memory filter.old
        (tab xors.old flows.old unknowns.old positions.old marks.old)
        packets.old (records keys.old counts.old flags.old)) }
{
    opening::open_in(
        layout::ipv4(),
        image,
        slot,
        filter,
        xors,
        flows,
        packets,
        unknowns,
        positions,
        marks,
        keys,
        counts,
        flags,
    )
}

// The tests of every call on a session: what places its flows, where all are passed; the index then has got each listed key.
fn tested(l: Layout, s: Session, room: Room<'_>, seen: &mut [u16]) -> Result<Placing, SessionError>
    requires { Lays l × Empty seen.old }
    ensures test { told result ≡ test_of l s (memory_seen room.entry) }
    ensures placing { IfOk result (λ p. (p.shape.layout ≡ l) × (p.shape.sizes ≡ s.sizes) × (p.salt ≡ s.salt)) }
    ensures seen { OnOk result (seen.new ≡ seen_upto l s.sizes s.salt s.listed room.entry.list.keys.now seen.old) }
{
    let shape = Shape::new(l, s.sizes).ok_or(SessionError::NotSession)?;
    if !room::fits(shape, room) {
        return Err(SessionError::BadRoom);
    }
    let p = Placing::new(shape, s.salt);
    if !test8::is_session_seen(p, s.listed, room.table, room.list, seen) {
        return Err(SessionError::NotSession);
    }
    Ok(p)
}

// Hands a key over to a session of any layout.
pub fn hand_over_in<'a>(
    l: Layout,
    s: Session,
    key: &[u8],
    filter: &[u8],
    xors: &'a mut [u8],
    flows: &'a mut [u16],
    packets: &[u32],
    unknowns: &'a mut [u16],
    positions: &'a mut [u16],
    marks: &'a mut [u64],
    keys: &'a mut [u8],
    counts: &'a mut [u32],
    flags: &'a mut [u8],
) -> Result<usize, HandOverError>
    requires { Lays l × (length key.now ≡ l.key) }
    ensures { handing_to result (memory filter.now
        (tab xors.new flows.new unknowns.new positions.new marks.new)
        packets.now (records keys.new counts.new flags.new))
        ≡ hand_over l s key.now (memory filter.now
        (tab xors.old flows.old unknowns.old positions.old marks.old)
        packets.now (records keys.old counts.old flags.old)) }
{
    let mut seen = [0u16; 11264];
    let room = Room::new(
        filter, xors, flows, packets, unknowns, positions, marks, keys, counts, flags,
    );
    let p = tested(l, s, room, &mut seen)?;
    let handed = test8::flagged_in(s.listed, test8::HANDED, flags);
    let mut table = Table {
        xors,
        flows,
        unknowns,
        positions,
        marks,
    };
    let mut list = Found {
        keys,
        counts,
        flags,
    };
    handing::hand(
        p, s.listed, handed, key, filter, &mut table, &mut list, &mut seen,
    )?;
    Ok(s.listed + 1)
}

// Hands a key over.
pub fn hand_over(
    s: Session,
    key: Key,
    filter: &[u8],
    xors: &mut [u8],
    flows: &mut [u16],
    packets: &[u32],
    unknowns: &mut [u16],
    positions: &mut [u16],
    marks: &mut [u64],
    keys: &mut [u8],
    counts: &mut [u32],
    flags: &mut [u8],
) -> Result<usize, HandOverError>
    ensures { handing_to result (memory filter.now
        (tab xors.new flows.new unknowns.new positions.new marks.new)
        packets.now (records keys.new counts.new flags.new))
        ≡ hand_over ipv4_layout s (key_bytes key) (memory filter.now
        (tab xors.old flows.old unknowns.old positions.old marks.old)
        packets.now (records keys.old counts.old flags.old)) }
{
    let bytes = <[u8; 13]>::from(key);
    hand_over_in(
        layout::ipv4(),
        s,
        &bytes,
        filter,
        xors,
        flows,
        packets,
        unknowns,
        positions,
        marks,
        keys,
        counts,
        flags,
    )
}

// Settles a session of any layout.
pub fn settle_in<'a>(
    l: Layout,
    s: Session,
    filter: &[u8],
    xors: &'a mut [u8],
    flows: &'a mut [u16],
    packets: &'a mut [u32],
    unknowns: &'a mut [u16],
    positions: &'a mut [u16],
    marks: &'a mut [u64],
    keys: &'a mut [u8],
    counts: &'a mut [u32],
    flags: &'a mut [u8],
) -> Result<usize, SettleError>
    requires { Lays l }
    ensures { settling_to result (memory filter.now
        (tab xors.new flows.new unknowns.new positions.new marks.new)
        packets.new (records keys.new counts.new flags.new))
        ≡ settle_of l s (memory filter.now
        (tab xors.old flows.old unknowns.old positions.old marks.old)
        packets.old (records keys.old counts.old flags.old)) }
{
    let mut seen = [0u16; 11264];
    let room = Room::new(
        filter, xors, flows, packets, unknowns, positions, marks, keys, counts, flags,
    );
    let p = tested(l, s, room, &mut seen)?;
    let mut table = Table {
        xors,
        flows,
        unknowns,
        positions,
        marks,
    };
    let mut list = Found {
        keys,
        counts,
        flags,
    };
    let listed = settling::settle_all(p, s.listed, &mut table, packets, &mut list, &mut seen)?;
    Ok(listed)
}

// Settles.
pub fn settle(
    s: Session,
    filter: &[u8],
    xors: &mut [u8],
    flows: &mut [u16],
    packets: &mut [u32],
    unknowns: &mut [u16],
    positions: &mut [u16],
    marks: &mut [u64],
    keys: &mut [u8],
    counts: &mut [u32],
    flags: &mut [u8],
) -> Result<usize, SettleError>
    ensures { settling_to result (memory filter.now
        (tab xors.new flows.new unknowns.new positions.new marks.new)
        packets.new (records keys.new counts.new flags.new))
        ≡ settle_of ipv4_layout s (memory filter.now
        (tab xors.old flows.old unknowns.old positions.old marks.old)
        packets.old (records keys.old counts.old flags.old)) }
{
    settle_in(
        layout::ipv4(),
        s,
        filter,
        xors,
        flows,
        packets,
        unknowns,
        positions,
        marks,
        keys,
        counts,
        flags,
    )
}

// Reports on a session of any layout.
pub fn report_in(
    l: Layout,
    s: Session,
    filter: &[u8],
    xors: &[u8],
    flows: &[u16],
    packets: &[u32],
    unknowns: &[u16],
    positions: &[u16],
    marks: &[u64],
    keys: &[u8],
    counts: &[u32],
    flags: &[u8],
) -> Result<Report, SessionError>
    requires { Lays l }
    ensures { result ≡ report_on l s (memory filter.now
        (tab xors.now flows.now unknowns.now positions.now marks.now)
        packets.now (records keys.now counts.now flags.now)) }
{
    let mut seen = [0u16; 11264];
    let room = Room::new(
        filter, xors, flows, packets, unknowns, positions, marks, keys, counts, flags,
    );
    tested(l, s, room, &mut seen)?;
    Ok(summary::report_of(s.listed, xors, flows, packets, flags))
}

// Reports.
pub fn report(
    s: Session,
    filter: &[u8],
    xors: &[u8],
    flows: &[u16],
    packets: &[u32],
    unknowns: &[u16],
    positions: &[u16],
    marks: &[u64],
    keys: &[u8],
    counts: &[u32],
    flags: &[u8],
) -> Result<Report, SessionError>
    ensures { result ≡ report_on ipv4_layout s (memory filter.now
        (tab xors.now flows.now unknowns.now positions.now marks.now)
        packets.now (records keys.now counts.now flags.now)) }
{
    report_in(
        layout::ipv4(),
        s,
        filter,
        xors,
        flows,
        packets,
        unknowns,
        positions,
        marks,
        keys,
        counts,
        flags,
    )
}
