// START: a buffer of the right size becomes the fresh store.
ghost use Rattle.std.specs.Prelude.{◌≡◌, cond, ◌/◌, ◌%◌, ◌<◌, ◌≤◌, eqb, length};
ghost use Rattle.store.specs.Layout.{size};
ghost use Rattle.store.specs.Store.{words};
ghost use Rattle.store.specs.Store.{fresh as fresh_store};

use super::check::{PORTS, size_of};
use stretches::stretch::{Pointers, Stretch, Transits};

// The number k over and over, in two bytes each, low byte first.
#[tactic(auto, unfolding(store::specs::Store::words))]
fn write_words(s: &mut [u8], k: u16)
    requires { length s.old % 2 ≡ 0 }
    ensures { s.new ≡ words (length s.old / 2) k }
{
    let [low, high] = k.to_le_bytes();
    for i in 0..s.len() / 2 {
        s[2 * i] = low;
        s[2 * i + 1] = high;
    }
}

// A store of n ports becomes fresh; a buffer of another size is answered false and not written.
pub fn fresh_of(store: &mut [u8], n: usize) -> bool
    requires { (0 < n) × (n ≤ 16) }
    ensures { (result ≡ eqb (length store.old) (size n)) × (store.new ≡ cond (eqb (length store.old) (size n)) (fresh_store n) store.old) }
{
    if store.len() != size_of(n) {
        return false;
    }
    store.fill(0);
    let a = Transits { port: 0 }.place(n);
    let e = Pointers { from: 0, to: 0 }.place(n);
    write_words(&mut store[a..e], (32 * (n - 1)) as u16);
    true
}

// START.
pub fn fresh(store: &mut [u8]) -> bool
    ensures { (result ≡ eqb (length store.old) (size 8)) × (store.new ≡ cond (eqb (length store.old) (size 8)) (fresh_store 8) store.old) }
{
    fresh_of(store, PORTS)
}
