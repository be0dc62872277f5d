// One lane of the lent store, lent as its own part of it. Its entries are w bytes: one on a pointer lane, two on a report lane. The width
// stays a number: a const parameter would ask more of callers.
#![tactic(auto)]

ghost use Rattle.std.specs.Prelude.{◌≡◌, ◌+◌, ◌*◌, ◌≤◌, ◌<◌, length};
ghost use Rattle.std.proofs.lemmas.List.Edits.{sets};
ghost use Rattle.lanes.specs.Lane.{pointer_places, pointer_width, report_width, count, added, taken, pointers_to};
ghost use Rattle.cursors.specs.Cursor.{cursor_of, front_of, unnamed, Entered, Roomy};

const OBJECTS: usize = 64; // an object's number is a report's first byte modulo this

// How many entries a lane has: the oldest stands first, the next free place is past so many.
#[derive(Clone, Copy)]
pub struct Cursor {
    pub len: usize,
}

// The oldest entry, with the cursor: by value, as the lane is written next. A pointer's second byte is given as 0, not as None: the
// contract of `front` says so, and the edit front_second_1.
#[derive(Clone, Copy)]
pub struct Front {
    pub first: u8,
    pub second: u8,
    pub cursor: Cursor,
}

// How many entries a lane has.
pub fn count(lane: &[u8]) -> u8
    requires { 0 < length lane.now }
    ensures { result ≡ count lane.now }
{
    lane[0] // the length byte
}

impl Cursor {
    // The cursor of a lane.
    pub fn of(lane: &[u8]) -> Cursor
        requires { 0 < length lane.now }
        ensures { result ≡ cursor_of lane.now }
    {
        Cursor {
            len: lane[0] as usize,
        }
    }

    // The oldest entry; a pointer's second byte is given as 0.
    pub fn front(self, lane: &[u8], w: usize) -> Front
        requires { Entered w self lane.now }
        ensures { result ≡ front_of w lane.now }
    {
        let entry = &lane[1..1 + w];
        Front {
            first: entry[0],
            second: entry.get(1).copied().unwrap_or(0),
            cursor: self,
        }
    }

    // The oldest entry is taken: the others move up by its place, and the last place becomes zero.
    #[tactic(auto, using(crate::proofs::Bytes::taken_written))]
    pub fn taken(self, lane: &mut [u8], w: usize) -> Cursor
        requires { Entered w self lane.old }
        ensures cursor { result ≡ cursor_of lane.new }
        ensures lane { lane.new ≡ taken w lane.old }
    {
        let left = self.len - 1;
        let end = lane.len() - w;
        // within the entries, where the compiler sees that none moves back: over the whole lane it keeps a call for those that do
        lane[1..].copy_within(w.., 0);
        put(lane, end, &[0, 0][..w]);
        lane[0] = left as u8;
        Cursor { len: left }
    }

    // An entry is added after the newest.
    #[tactic(auto, using(crate::proofs::Bytes::added_written))]
    pub fn added(self, lane: &mut [u8], entry: &[u8]) -> Cursor
        requires { Roomy (length entry.now) self lane.old }
        ensures cursor { result ≡ cursor_of lane.new }
        ensures lane { lane.new ≡ added (length entry.now) entry.now lane.old }
    {
        let w = entry.len();
        let n = self.len;
        let at = 1 + w * n;
        put(lane, at, entry);
        lane[0] = (n + 1) as u8;
        Cursor { len: n + 1 }
    }
}

// An entry's bytes, one or two, are written at a place: one by one, since `copy_from_slice` and `fill` of a number of bytes that the compiler
// does not know are calls of the C library.
fn put(lane: &mut [u8], at: usize, entry: &[u8])
    requires { (pointer_width ≤ length entry.now) × (length entry.now ≤ report_width) × (at + length entry.now ≤ length lane.old) }
    ensures { lane.new ≡ sets lane.old at entry.now }
{
    lane[at] = entry[0];
    if let Some(second) = entry.get(1) {
        lane[at + 1] = *second;
    }
}

// How many entries of a pointer lane are o.
#[tactic(auto, using(crate::proofs::Bytes::counted), unfolding(lanes::specs::Lane::pointers_to))]
pub fn pointers_to(lane: &[u8], o: u8) -> usize
    requires { (length lane.now ≡ 1 + pointer_width * pointer_places) × (count lane.now ≤ pointer_places) }
    ensures count { result ≡ pointers_to o lane.now }
    ensures most { result ≤ pointer_places }
{
    let n = lane[0] as usize;
    lane[1..1 + n].iter().map(|x| usize::from(*x == o)).sum()
}

// Is no entry about o?
pub fn unnamed(lane: &[u8], w: usize, o: usize) -> bool
    requires { (0 < w) × (1 + w * count lane.now ≤ length lane.now) }
    ensures { result ≡ unnamed w o lane.now }
{
    let n = lane[0] as usize;
    // an empty lane is answered before the walk is set up
    n == 0 || (0..n).all(|i| lane[1 + w * i] as usize % OBJECTS != o)
}
