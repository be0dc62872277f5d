// The full check's part on lanes, for both kinds.
ghost use Rattle.std.specs.Prelude.{◌≡◌, ℕ, Bool, List, ◌+◌, ◌*◌, ◌<◌, ◌≤◌, length};
ghost use Rattle.books.specs.Numbers.{every};
ghost use Rattle.lanes.specs.Lane.{entry, silent};
ghost use Rattle.store.specs.Layout.{objects, read};
ghost use Rattle.store.specs.Store.{pointer_right, report_right};
ghost use Rattle.form.specs.Check.{lane_formed_at, row_formed, lanes_formed};

use stretches::reads::Store;
use stretches::stretch::{Lane, OBJECTS, Objects, Pointers, Reports};

// Is every byte 0?
fn all_zero(l: &[u8]) -> bool
    ensures { result ≡ silent l.now }
{
    l.iter().fold(0, |bits, b| bits | *b) == 0
}

// The same of the places past a lane's entries. Never inlined: written out in the walk over lanes, it makes the check of a store whose
// lanes are empty, the usual case, take a fifth longer.
#[inline(never)]
fn rest_zero(l: &[u8]) -> bool
    ensures { result ≡ silent l.now }
{
    all_zero(l)
}

// A kind of lane with the test of its entries: n is the number of ports, a and b the ports that the lane is between. They stay numbers
// beside the store, here and below: a lane of a kind does not give its ports back, and an entry's rule speaks of them.
pub trait Entries: Lane {
    ghost right: { (n : ℕ) (obj : List ℕ) (a b : ℕ) → List ℕ → Bool };

    // Is an entry on the lane from port a to port b right?
    fn right(store: Store<'_>, a: usize, b: usize, e: &[u8]) -> bool
        requires port { b < store.ports }
        requires whole { length e.now ≡ Self.WIDTH }
        ensures { result ≡ right store.entry.ports (read store.entry.ports objects store.entry.bytes.now) a b e.now };
}

// A pointer names an object in use.
impl Entries for Pointers {
    ghost right = { λ n obj a b. pointer_right obj };

    fn right(store: Store<'_>, a: usize, b: usize, e: &[u8]) -> bool {
        let obj = store.part(Objects);
        let o = e[0] as usize;
        o < OBJECTS && obj[o] != 0
    }
}

// A report goes to the object's home; of an s its port is a port and not the sender, of any other its port byte is 0.
impl Entries for Reports {
    ghost right = { report_right };

    fn right(store: Store<'_>, a: usize, b: usize, e: &[u8]) -> bool {
        let x = e[0] as usize;
        let q = e[1] as usize;
        if store.part(Objects)[x % OBJECTS] as usize != b + 1 {
            return false;
        }
        // left at once, as here, a busy store's check takes a sixth less than by one expression
        if x / OBJECTS != 0 {
            return q == 0;
        }
        if store.ports <= q {
            return false;
        }
        q != a
    }
}

// Is entry i of a lane right, the oldest being entry 0?
fn entry_right<L: Entries>(store: Store<'_>, a: usize, b: usize, i: usize, lane: &[u8]) -> bool
    requires port { b < store.ports }
    requires long { length lane.now ≡ L.BYTES }
    requires within { 1 + L.WIDTH * (i + 1) ≤ length lane.now }
    ensures { result ≡ L.right store.entry.ports (read store.entry.ports objects store.entry.bytes.now) a b (entry L.WIDTH i lane.now) }
{
    let at = 1 + L::WIDTH * i;
    L::right(store, a, b, &lane[at..at + L::WIDTH])
}

// Are the first k entries of a lane right?
fn entries_right<L: Entries>(store: Store<'_>, a: usize, b: usize, k: usize, lane: &[u8]) -> bool
    requires port { b < store.ports }
    requires within { 1 + L.WIDTH * k ≤ length lane.now }
    requires long { length lane.now ≡ L.BYTES }
    ensures { result ≡ every k (λ i. L.right store.entry.ports (read store.entry.ports objects store.entry.bytes.now) a b (entry L.WIDTH i lane.now)) }
{
    (0..k).all(|i| entry_right::<L>(store, a, b, i, lane))
}

// The lane of a kind from port a to port b. An empty one, the usual case, is one test of its places.
#[tactic(auto, using(crate::proofs::CheckedLanes::lane_ways))]
fn lane_formed<L: Entries>(store: Store<'_>, a: usize, b: usize) -> bool
    requires from { a < store.ports }
    requires to { b < store.ports }
    ensures { result ≡ lane_formed_at L.WIDTH L.PLACES (λ a b. L.stretch (L.between a b)) L.right store.entry.ports store.entry.bytes.now a b }
{
    let lane = store.part(L::between(a, b));
    let k = lane[0] as usize;
    if k == 0 {
        return all_zero(&lane[1..]);
    }
    k <= L::PLACES
        && a != b
        && entries_right::<L>(store, a, b, k, lane)
        && rest_zero(&lane[1 + L::WIDTH * k..])
}

// The lanes of a kind from port a.
fn row_formed<L: Entries>(store: Store<'_>, a: usize) -> bool
    requires { a < store.ports }
    ensures { result ≡ row_formed L.WIDTH L.PLACES (λ a b. L.stretch (L.between a b)) L.right store.entry.ports store.entry.bytes.now a }
{
    (0..store.ports).all(|b| lane_formed::<L>(store, a, b))
}

// All lanes of a kind.
pub fn lanes_formed<L: Entries>(store: Store<'_>) -> bool
    ensures { result ≡ lanes_formed L.WIDTH L.PLACES (λ a b. L.stretch (L.between a b)) L.right store.entry.ports store.entry.bytes.now }
{
    (0..store.ports).all(|a| row_formed::<L>(store, a))
}
