// What acts look for on the lent store: the lowest port standing against retiring, the lowest free object.
ghost use Rattle.std.specs.Prelude.{◌≡◌, ◌<◌, MatchOption};
ghost use Rattle.books.specs.Books.{object_limit, against};
ghost use Rattle.store.specs.Store.{held_of, heard_of, transit_of};
ghost use Rattle.machine.specs.Effects.{lowest_free};
ghost use Rattle.machine.specs.Machine.{standing};

use counters::Ports;
use stretches::reads::Store;
use stretches::stretch::{Heard, Held, Object, Objects, Transits};

// Does port p stand against retiring o? The home stands by its true holding, another port by its heard one, and any by its transit.
#[tactic(auto, unfolding(books::specs::Books::against))]
fn against(store: Store<'_>, o: Object, home: usize, p: usize) -> bool
    requires { p < store.ports }
    ensures { result ≡ against store.entry.ports home (λ p. heard_of store.entry.ports p o.number store.entry.bytes.now) (λ p. transit_of store.entry.ports p o.number store.entry.bytes.now) (held_of store.entry.ports home o.number store.entry.bytes.now) p }
{
    let holding = if p == home {
        store.holding_of(Held { port: p }, o)
    } else {
        store.holding_of(Heard { port: p }, o)
    };
    0 < holding || store.transit_of(Transits { port: p }, o) != Ports(store.ports).zero() as u16
}

// The lowest port standing against retiring o. A free object's home is taken as 0, as the definition takes it.
pub fn standing(store: Store<'_>, o: Object) -> Option<usize>
    ensures { MatchOption result (standing store.entry.ports o.number store.entry.bytes.now ≡ store.entry.ports) (λ p. (p ≡ standing store.entry.ports o.number store.entry.bytes.now) × (p < store.entry.ports)) }
{
    let home = store.home(o).unwrap_or(0);
    let mut found = None;
    for p in 0..store.ports {
        if against(store, o, home, p) {
            found = Some(p);
            break;
        }
    }
    found
}

// The lowest object number that is not in use.
pub fn lowest_free(store: Store<'_>) -> Option<Object>
    ensures { MatchOption result (lowest_free store.entry.ports store.entry.bytes.now ≡ object_limit) (λ o. o.number ≡ lowest_free store.entry.ports store.entry.bytes.now) }
{
    let number = store.part(Objects).iter().position(|b| *b == 0)?;
    Some(Object { number })
}
