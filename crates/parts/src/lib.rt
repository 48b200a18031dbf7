// One of the two sessions of an exchange: where its part of the joined areas ends, and the part as one value that is settled and takes a list.
// It rests on settling and handing for these two steps, and on test8 for the number handed over.
#![tactic(auto)]

ghost use Rattle.std.specs.Prelude.{◌≡◌, ◌+◌, ◌≤◌, length};
ghost use Rattle.parts.specs.Sides.{Stands, rested, settle_side, hand_list};
ghost use Rattle.parts.specs.Places.{Near, origin, place_after};
ghost use Rattle.peeling.specs.Peel.{listed_at};
ghost use Rattle.list.specs.Records.{handed_in};
ghost use Rattle.handing.specs.Hand.{handing, hand_of, Hands, taken_by};
ghost use Rattle.parts.specs.Parts.{
  tab_in,
  list_in,
  switch_in,
  side_in,
  given_in,
  PartKept,
  Takes,
};

use handing::HandError;
use hash::Placing;
use layout::Shape;
use list::Found;
use peeling::Damage;
use table::Table;

// A place in each kind of area: in filter bytes, cells, FlowXOR bytes, mark words, records, and their keys' bytes.
#[derive(Clone, Copy)]
pub struct Place {
    pub filter: usize,
    pub cells: usize,
    pub xors: usize,
    pub words: usize,
    pub records: usize,
    pub keys: usize,
}

impl Place {
    // The place of the first session.
    pub fn origin() -> Place
        ensures { result ≡ origin }
    {
        Place {
            filter: 0,
            cells: 0,
            xors: 0,
            words: 0,
            records: 0,
            keys: 0,
        }
    }

    // The place after the part of a session of this shape.
    pub fn after(self, s: Shape) -> Place
        requires { Near self }
        ensures { result ≡ place_after s.layout s.sizes self }
    {
        let n = s.table_cells();
        Place {
            filter: self.filter + s.filter_bytes(),
            cells: self.cells + n,
            xors: self.xors + n * s.layout.key,
            words: self.words + (n + 63) / 64,
            records: self.records + 2 * n,
            keys: self.keys + 2 * n * s.layout.key,
        }
    }
}

// A session of an exchange: what places its keys, how many flows are listed, its room, and the index of the listed flows. The slices are fields of
// its own, of which each method makes the table and the found flows that it hands on: the check has no rule for what is left behind a struct of
// `&mut [T]` inside a struct, nor for a function that hands out two of them.
#[derive(Drop)]
pub struct Part<'a> {
    pub placing: Placing,
    pub listed: usize,
    pub filter: &'a [u8],
    pub xors: &'a mut [u8],
    pub flows: &'a mut [u16],
    pub packets: &'a mut [u32],
    pub unknowns: &'a mut [u16],
    pub positions: &'a mut [u16],
    pub marks: &'a mut [u64],
    pub keys: &'a mut [u8],
    pub counts: &'a mut [u32],
    pub flags: &'a mut [u8],
    pub seen: &'a mut [u16],
}

// How many flows are listed after settling.
fn listed_at(settled: Result<usize, Damage>) -> usize
    ensures { result ≡ listed_at settled }
{
    match settled {
        Ok(listed) => listed,
        Err(damage) => damage.listed,
    }
}

impl Part<'_> {
    // Settles the session.
    #[tactic(auto, unfolding(crate::specs::Sides::settle_side))]
    pub fn settle(&mut self) -> Result<usize, Damage>
        requires { Stands self.old.placing.shape.layout (switch_in self.old) (side_in self.old) }
        ensures value { rested result (side_in self.new) ≡ settle_side self.old.placing.shape.layout (switch_in self.old) (side_in self.old) }
        ensures kept { PartKept self.new self.old }
    {
        let mut table = Table {
            xors: self.xors,
            flows: self.flows,
            unknowns: self.unknowns,
            positions: self.positions,
            marks: self.marks,
        };
        let mut list = Found {
            keys: self.keys,
            counts: self.counts,
            flags: self.flags,
        };
        let settled = settling::settle_all(
            self.placing,
            self.listed,
            &mut table,
            self.packets,
            &mut list,
            self.seen,
        );
        self.listed = listed_at(settled);
        settled
    }

    // Hands a key over to the session, in which so many flows were handed over.
    fn take(&mut self, handed: usize, key: &[u8]) -> Result<(), HandError>
        requires { Hands self.old.placing.shape.layout self.old.placing.shape.sizes self.old.placing.salt self.old.listed handed key.now self.old.filter.now (tab_in self.old) (list_in self.old) self.old.seen.now
            × (self.old.listed ≤ 3072) }
        ensures value { handing result (tab_in self.new) (list_in self.new) self.new.seen.now
            ≡ hand_of self.old.placing.shape.layout self.old.placing.shape.sizes self.old.placing.salt self.old.listed key.now self.old.filter.now (tab_in self.old) (list_in self.old) self.old.seen.now }
        ensures listed { self.new.listed ≡ self.old.listed + taken_by result }
        ensures packets { self.new.packets.now ≡ self.old.packets.now }
        ensures kept { PartKept self.new self.old }
    {
        let mut table = Table {
            xors: self.xors,
            flows: self.flows,
            unknowns: self.unknowns,
            positions: self.positions,
            marks: self.marks,
        };
        let mut list = Found {
            keys: self.keys,
            counts: self.counts,
            flags: self.flags,
        };
        let answer = handing::hand(
            self.placing,
            self.listed,
            handed,
            key,
            self.filter,
            &mut table,
            &mut list,
            self.seen,
        );
        self.listed += handing::taken_by(answer);
        answer
    }

    // How many of the listed flows were handed over.
    #[tactic(auto, unfolding(list::specs::Records::handed_in, list::specs::Records::is_handed))]
    fn handed_in(&self) -> usize
        requires { self.now.listed ≤ length self.now.flags.now }
        ensures { (result ≡ handed_in self.now.listed (list_in self.now)) × (result ≤ self.now.listed) }
    {
        test8::flagged_in(self.listed, test8::HANDED, self.flags)
    }

    // Hands the other's list over to the session, in order. Answers 9 to 12 are passed over, and those of 12 are counted.
    pub fn take_from(&mut self, other: &Part<'_>) -> usize
        requires { Takes self.old other.now.keys.now other.now.listed }
        ensures value { given_in self.new result
            ≡ hand_list self.old.placing.shape.layout (switch_in self.old) self.old.filter.now other.now.keys.now other.now.listed (side_in self.old) }
        ensures few { result ≤ other.now.listed }
        ensures packets { self.new.packets.now ≡ self.old.packets.now }
        ensures kept { PartKept self.new self.old }
    {
        let w = self.placing.shape.layout.key;
        let mut handed = self.handed_in();
        let mut twelves = 0;
        for i in 0..other.listed {
            let a = i * w;
            let e = a + w;
            let answer = self.take(handed, &other.keys[a..e]);
            handed += handing::taken_by(answer);
            twelves += handing::twelve_by(answer);
        }
        twelves
    }
}
