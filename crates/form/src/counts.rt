// The full check's part on object bytes, holdings and transits.
ghost use Rattle.std.specs.Prelude.{◌≡◌, ℕ, Bool, ◌<◌, ◌≤◌, leb};
ghost use Rattle.books.specs.Numbers.{every};
ghost use Rattle.books.specs.Books.{object_limit};
ghost use Rattle.store.specs.Store.{object_byte, holding_formed, transit_formed};
ghost use Rattle.form.specs.Check.{port_holdings, port_transits};

use counters::transit_at;
use stretches::reads::Store;
use stretches::stretch::{Heard, Held, OBJECTS, Objects, Transits};

const HOLDING: u8 = 200; // the greatest holding

// Does a test pass at every object? The loop is never left early, so that many objects are taken at a time: left early, it would take
// twelve times as long.
fn every_object<F: Fn(usize) -> bool>(test: F) -> bool
    requires { (o : ℕ) → o < object_limit → F.pre test o }
    ensures { (p : ℕ → Bool) → ((o : ℕ) (r : Bool) → o < object_limit → F.post test o r → r ≡ p o) → result ≡ every object_limit p }
{
    let mut all = true;
    for o in 0..OBJECTS {
        all &= test(o);
    }
    all
}

// One object's two holdings at port p; b is its object byte, taken as it is, as the definition takes it. Holdings and transits are tested
// apart, here and below: two rules of document 01 with a definition each; the loop over the objects is one.
fn holding_formed(p: u8, b: u8, t: u8, h: u8) -> bool
    requires { p < 16 }
    ensures { result ≡ holding_formed p b t h }
{
    let most = t.max(h);
    most <= HOLDING && (b != 0 || most == 0) && (b != p + 1 || h == t)
}

// One object's transit x, as it is stored; b is its object byte.
fn transit_formed(n: u16, b: u8, x: u16) -> bool
    requires some { 0 < n }
    requires few { n ≤ 16 }
    ensures { result ≡ transit_formed n b x }
{
    let zero = 32 * (n - 1);
    let top = zero + 16 * (n + 1);
    x <= top && (b != 0 || x == zero)
}

// Is every object byte at most the number of ports?
pub fn objects_formed(store: Store<'_>) -> bool
    ensures { result ≡ every object_limit (λ o. leb (object_byte store.entry.ports o store.entry.bytes.now) store.entry.ports) }
{
    let obj = store.part(Objects);
    let most = store.ports as u8;
    every_object(|o| obj[o] <= most)
}

// Port p's holdings.
fn port_holdings(store: Store<'_>, p: usize) -> bool
    requires { p < store.ports }
    ensures { result ≡ port_holdings store.entry.ports store.entry.bytes.now p }
{
    let obj = store.part(Objects);
    let t = store.part(Held { port: p });
    let h = store.part(Heard { port: p });
    every_object(|o| holding_formed(p as u8, obj[o], t[o], h[o]))
}

// Port p's transits.
fn port_transits(store: Store<'_>, p: usize) -> bool
    requires { p < store.ports }
    ensures { result ≡ port_transits store.entry.ports store.entry.bytes.now p }
{
    let obj = store.part(Objects);
    let row = store.part(Transits { port: p });
    let n = store.ports as u16;
    every_object(|o| transit_formed(n, obj[o], transit_at(row, o)))
}

// Every port's holdings.
pub fn holdings_formed(store: Store<'_>) -> bool
    ensures { result ≡ every store.entry.ports (port_holdings store.entry.ports store.entry.bytes.now) }
{
    (0..store.ports).all(|p| port_holdings(store, p))
}

// Every port's transits.
pub fn transits_formed(store: Store<'_>) -> bool
    ensures { result ≡ every store.entry.ports (port_transits store.entry.ports store.entry.bytes.now) }
{
    (0..store.ports).all(|p| port_transits(store, p))
}
