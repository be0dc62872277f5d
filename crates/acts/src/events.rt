// Events on the lent store: heard in the home's books, told to the home, happening at a port.
ghost use Rattle.std.specs.Prelude.{◌≡◌, ◌<◌};
ghost use Rattle.store.specs.Store.{report};
ghost use Rattle.machine.specs.Effects.{hears, tells, happens};
ghost use Rattle.machine.specs.Fits.{hears_fits, happens_fits};
ghost use Rattle.stretches.specs.Becomes.{Becomes};
ghost use Rattle.acts.specs.Told.{told, Hearable, Placed, Tellable, Possible};

use counters::Event;
use stretches::reads::Store;
use stretches::stretch::{Heard, Held, OBJECTS, Object, Reports, Transits};
use stretches::writes::StoreMut;

// An event about an object: what it is, where it happens, and the port that it names.
#[derive(Clone, Copy)]
pub struct Happening {
    pub kind: Event,
    pub object: Object,
    pub at: usize,
    pub names: usize,
}

// The two bytes of an event's report: its object and kind, and the port sent to.
fn report(e: Happening) -> [u8; 2]
    requires { e.names < 256 }
    ensures { result ≡ report (told e) }
{
    let port = match e.kind {
        Event::Send => e.names as u8,
        _ => 0,
    };
    [(e.object.number + OBJECTS * e.kind as usize) as u8, port]
}

// An event is heard in the books.
pub fn hears(store: &mut StoreMut<'_>, e: Happening)
    requires { Hearable store.old.ports (told e) store.old.bytes.now }
    ensures { Becomes store.old store.new (hears store.old.ports (told e) store.old.bytes.now) }
{
    store.change_transit(Transits { port: e.names }, e.object, e.kind);
    store.change_holding(Heard { port: e.names }, e.object, e.kind);
}

// An event is told: at the home it is heard at once, elsewhere its report goes to the end of the lane to the home.
pub fn tells(store: &mut StoreMut<'_>, e: Happening)
    requires { Tellable store.old.ports (told e) store.old.bytes.now }
    ensures { Becomes store.old store.new (tells store.old.ports (told e) store.old.bytes.now) }
{
    let home = store.shared().home(e.object).unwrap();
    if home == e.at {
        hears(store, e);
    } else {
        store.add_report(
            Reports {
                from: e.at,
                to: home,
            },
            report(e),
        );
    }
}

// An event happens at a port: the true holding changes, and it is told.
pub fn happens(store: &mut StoreMut<'_>, e: Happening)
    requires { Possible store.old.ports (told e) store.old.bytes.now }
    ensures { Becomes store.old store.new (happens store.old.ports (told e) store.old.bytes.now) }
{
    store.change_holding(Held { port: e.at }, e.object, e.kind);
    tells(store, e);
}

// Does an event, heard, leave the counts of the books in range?
pub fn hears_fits(store: Store<'_>, e: Happening) -> bool
    requires { Placed store.ports (told e) store.bytes.now }
    ensures { result ≡ hears_fits store.entry.ports (told e) store.entry.bytes.now }
{
    store.holding_fits(Heard { port: e.names }, e.object, e.kind)
        && store.transit_fits(Transits { port: e.names }, e.object, e.kind)
}

// Does an event, as it happens, leave every count in range?
pub fn happens_fits(store: Store<'_>, e: Happening) -> bool
    requires { Placed store.ports (told e) store.bytes.now }
    ensures { result ≡ happens_fits store.entry.ports (told e) store.entry.bytes.now }
{
    store.holding_fits(Held { port: e.at }, e.object, e.kind)
        && (store.home(e.object) != Some(e.at)
            || store.transit_fits(Transits { port: e.names }, e.object, e.kind))
}
