// A lent store that is written.
ghost use Rattle.std.specs.Prelude.{◌≡◌, true, [], ◌∷◌, ◌≤◌, ◌<◌, length, get_or, set};
ghost use Rattle.books.specs.Books.{holding_effect, transit_effect, transit_top};
ghost use Rattle.books.specs.Fits.{holding_fits, transit_fits};
ghost use Rattle.counters.specs.Counters.{kind_of};
ghost use Rattle.lanes.specs.Lane.{pointer_width, report_width, pointer_places, report_places, count, added, taken};
ghost use Rattle.store.specs.Layout.{objects, transit, pointers, reports, read, edit};
ghost use Rattle.store.specs.Store.{transit_of};
ghost use Rattle.stretches.specs.Stretches.{Lent};

use crate::reads::Store;
use crate::stretch::{Holdings, Lane, Object, Pointers, Reports, Stretch, Transits};
use counters::Event;
use cursors::Cursor;

// A store of so many ports, lent to be written. Each writer borrows its stretch itself: a function that handed one out would have to show
// `lent` of whatever its caller leaves.
#[derive(Drop)]
pub struct StoreMut<'a> {
    pub bytes: &'a mut [u8],
    pub ports: usize,
    pub ghost lent: { Lent ports bytes.now },
}

impl StoreMut<'_> {
    ghost use Rattle.stretches.specs.Becomes.{Becomes};

    // The store as it is read.
    pub fn shared(&self) -> Store<'_>
        ensures ports { result.ports ≡ self.now.ports }
        ensures bytes { result.bytes.now ≡ self.now.bytes.now }
    {
        Store {
            bytes: self.bytes,
            ports: self.ports,
        }
    }

    // o's object byte becomes b.
    pub fn set_object(&mut self, o: Object, b: u8)
        ensures { Becomes self.old self.new (edit self.old.ports objects (λ r. set r o.number b) self.old.bytes.now) }
    {
        self.bytes[o.number] = b;
    }

    // An event about o: what it does to a port's true holdings as it happens, or to its heard holdings as it is heard.
    pub fn change_holding<H: Holdings>(&mut self, c: H, o: Object, e: Event)
        requires inside { H.Inside self.old.ports c }
        requires fits { holding_fits (kind_of e) (get_or (read self.old.ports (H.stretch c) self.old.bytes.now) o.number 0) ≡ true }
        ensures { Becomes self.old self.new (edit self.old.ports (H.stretch c) (holding_effect (kind_of e) o.number) self.old.bytes.now) }
    {
        let at = c.place(self.ports);
        let end = at + H::BYTES;
        counters::holding_effect(e, &mut self.bytes[at..end], o.number);
    }

    // The same to its heard transits as it is heard: apart from holdings, as document 01 asks for two types.
    pub fn change_transit(&mut self, c: Transits, o: Object, e: Event)
        requires inside { c.port < self.old.ports }
        requires range { transit_of self.old.ports c.port o.number self.old.bytes.now ≤ transit_top self.old.ports }
        requires fits { transit_fits self.old.ports (kind_of e) (transit_of self.old.ports c.port o.number self.old.bytes.now) ≡ true }
        ensures { Becomes self.old self.new (edit self.old.ports (transit c.port) (transit_effect (kind_of e) o.number) self.old.bytes.now) }
    {
        let n = self.ports;
        let at = c.place(n);
        let end = at + Transits::BYTES;
        counters::transit_effect(e, &mut self.bytes[at..end], o.number, n);
    }

    // An entry added to a lane. Always inlined: there the compiler knows how many bytes the entry has.
    #[inline(always)]
    fn add<L: Lane>(&mut self, c: L, entry: &[u8])
        requires inside { L.Inside self.old.ports c }
        requires wide { length entry.now ≡ L.WIDTH }
        requires room { count (read self.old.ports (L.stretch c) self.old.bytes.now) < L.PLACES }
        ensures { Becomes self.old self.new (edit self.old.ports (L.stretch c) (added L.WIDTH entry.now) self.old.bytes.now) }
    {
        let at = c.place(self.ports);
        let end = at + L::BYTES;
        let lane = &mut self.bytes[at..end];
        Cursor::of(lane).added(lane, entry);
    }

    // Pointer o added to its lane. It and a report are added apart: the type says how many bytes, of which a generic one had to ask.
    pub fn add_pointer(&mut self, c: Pointers, o: u8)
        requires inside { (c.from < self.old.ports) × (c.to < self.old.ports) }
        requires room { count (read self.old.ports (pointers c.from c.to) self.old.bytes.now) < pointer_places }
        ensures { Becomes self.old self.new (edit self.old.ports (pointers c.from c.to) (added pointer_width (o ∷ [])) self.old.bytes.now) }
    {
        self.add(c, &[o]);
    }

    // A report's two bytes added to its lane.
    pub fn add_report(&mut self, c: Reports, report: [u8; 2])
        requires inside { (c.from < self.old.ports) × (c.to < self.old.ports) }
        requires room { count (read self.old.ports (reports c.from c.to) self.old.bytes.now) < report_places }
        ensures { Becomes self.old self.new (edit self.old.ports (reports c.from c.to) (added report_width report) self.old.bytes.now) }
    {
        self.add(c, &report);
    }

    // The oldest entry taken from a lane.
    pub fn take<L: Lane>(&mut self, c: L)
        requires inside { L.Inside self.old.ports c }
        requires entered { 0 < count (read self.old.ports (L.stretch c) self.old.bytes.now) }
        ensures { Becomes self.old self.new (edit self.old.ports (L.stretch c) (taken L.WIDTH) self.old.bytes.now) }
    {
        let at = c.place(self.ports);
        let end = at + L::BYTES;
        let lane = &mut self.bytes[at..end];
        Cursor::of(lane).taken(lane, L::WIDTH);
    }
}

#[cfg(test)]
mod tests {
    use super::*;

    // Who lends its bytes knows them when they are back: one object byte differs.
    #[test]
    fn lent_and_back(rt: HostRuntime) {
        let mut bytes = [0; 402];
        let mut store = StoreMut {
            bytes: &mut bytes,
            ports: 1,
        };
        store.set_object(Object { number: 5 }, 1);
        assert_eq!(rt; bytes[5], 1);
    }
}
