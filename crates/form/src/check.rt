// The full check: is a store well formed? Everything but the public call is over the number of ports. In `size_of`, `formed` and START it is
// a number with a clause: callers have a number, and a type would be made in each call and taken apart in each body.
ghost use Rattle.std.specs.Prelude.{◌≡◌, ◌<◌, ◌≤◌};
ghost use Rattle.store.specs.Layout.{size};
ghost use Rattle.store.specs.Store.{well_formed};

use super::counts::{holdings_formed, objects_formed, transits_formed};
use super::entries::lanes_formed;
use stretches::reads::Store;
use stretches::stretch::{OBJECTS, Pointers, Reports, Stretch};

// The ports of the lent store.
pub(crate) const PORTS: usize = 8;

// The bytes of a store of n ports.
pub fn size_of(n: usize) -> usize
    requires { n ≤ 16 }
    ensures { result ≡ size n }
{
    OBJECTS + 4 * OBJECTS * n + (Pointers::BYTES + Reports::BYTES) * (n * n)
}

// Is a store of n ports well formed? Object bytes and counts first, then the lanes.
#[tactic(auto, unfolding(store::specs::Store::well_formed))]
pub fn formed(s: &[u8], n: usize) -> bool
    requires { (0 < n) × (n ≤ 16) }
    ensures { result ≡ well_formed n s.now }
{
    if s.len() != size_of(n) {
        return false;
    }
    let store = Store { bytes: s, ports: n };
    objects_formed(store)
        && holdings_formed(store)
        && transits_formed(store)
        && lanes_formed::<Pointers>(store)
        && lanes_formed::<Reports>(store)
}

// Is the store well formed?
pub fn well_formed(s: &[u8]) -> bool
    ensures { result ≡ well_formed 8 s.now }
{
    formed(s, PORTS)
}
