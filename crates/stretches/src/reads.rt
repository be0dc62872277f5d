// A lent store that is read.
ghost use Rattle.std.specs.Prelude.{◌≡◌, ◌*◌, ◌≤◌, ◌<◌, length, get_or};
ghost use Rattle.books.specs.Books.{transit_top};
ghost use Rattle.books.specs.Fits.{holding_fits, transit_fits};
ghost use Rattle.counters.specs.Counters.{kind_of};
ghost use Rattle.lanes.specs.Lane.{pointer_places, count, pointers_to};
ghost use Rattle.cursors.specs.Cursor.{front_of, unnamed};
ghost use Rattle.store.specs.Layout.{pointers, read};
ghost use Rattle.store.specs.Store.{object_byte, transit_of, on_way};
ghost use Rattle.stretches.specs.Stretches.{Lent, LanesLow, home_of};

use crate::stretch::{Holdings, Lane, Object, Objects, Pointers, Stretch, Transits};
use counters::Event;
use cursors::{Cursor, Front};

// A store of so many ports, lent to be read.
#[derive(Clone, Copy)]
pub struct Store<'a> {
    pub bytes: &'a [u8],
    pub ports: usize,
    pub ghost lent: { Lent ports bytes.now },
}

impl<'a> Store<'a> {
    // The bytes of a stretch.
    pub fn part<S: Stretch>(self, c: S) -> &'a [u8]
        requires { S.Inside self.ports c }
        ensures bytes { result.now ≡ read self.entry.ports (S.stretch c) self.entry.bytes.now }
        ensures long { length result.now ≡ S.BYTES }
    {
        let at = c.place(self.ports);
        &self.bytes[at..at + S::BYTES]
    }

    // o's object byte: 0 if it is free, else its home plus 1, as the store has it.
    pub fn object_byte(self, o: Object) -> u8
        ensures { result ≡ object_byte self.entry.ports o.number self.entry.bytes.now }
    {
        let bytes = self.part(Objects);
        bytes[o.number]
    }

    // The home of o, if o is in use.
    pub fn home(self, o: Object) -> Option<usize>
        ensures { result ≡ home_of self.entry.ports o.number self.entry.bytes.now }
    {
        (self.object_byte(o) as usize).checked_sub(1)
    }

    // A port's true holding of o, or its heard holding. A transit is read apart from it, here and below: document 01 asks for two types.
    pub fn holding_of<H: Holdings>(self, c: H, o: Object) -> u8
        requires { H.Inside self.ports c }
        ensures { result ≡ get_or (read self.entry.ports (H.stretch c) self.entry.bytes.now) o.number 0 }
    {
        let row = self.part(c);
        row[o.number]
    }

    // A port's heard transit of o, as it is stored.
    pub fn transit_of(self, c: Transits, o: Object) -> u16
        requires { c.port < self.ports }
        ensures { result ≡ transit_of self.entry.ports c.port o.number self.entry.bytes.now }
    {
        counters::transit_at(self.part(c), o.number)
    }

    // Does an event about o, as it happens or is heard, leave a port's holding in range?
    pub fn holding_fits<H: Holdings>(self, c: H, o: Object, e: Event) -> bool
        requires { H.Inside self.ports c }
        ensures { result ≡ holding_fits (kind_of e) (get_or (read self.entry.ports (H.stretch c) self.entry.bytes.now) o.number 0) }
    {
        counters::holding_fits(e, self.part(c), o.number)
    }

    // Does an event about o, heard, leave a port's heard transit in range?
    pub fn transit_fits(self, c: Transits, o: Object, e: Event) -> bool
        requires inside { c.port < self.ports }
        requires range { transit_of self.ports c.port o.number self.bytes.now ≤ transit_top self.ports }
        ensures { result ≡ transit_fits self.entry.ports (kind_of e) (transit_of self.entry.ports c.port o.number self.entry.bytes.now) }
    {
        counters::transit_fits(e, self.part(c), o.number, self.ports)
    }

    // The entries of a lane.
    pub fn count<L: Lane>(self, c: L) -> u8
        requires { L.Inside self.ports c }
        ensures { result ≡ count (read self.entry.ports (L.stretch c) self.entry.bytes.now) }
    {
        cursors::count(self.part(c))
    }

    // Is no entry of a lane about o? Any number may be asked for here and below, not only an object's: a type would ask more.
    pub fn unnamed<L: Lane>(self, c: L, o: usize) -> bool
        requires inside { L.Inside self.ports c }
        requires low { count (read self.ports (L.stretch c) self.bytes.now) ≤ L.PLACES }
        ensures { result ≡ unnamed L.WIDTH o (read self.entry.ports (L.stretch c) self.entry.bytes.now) }
    {
        cursors::unnamed(self.part(c), L::WIDTH, o)
    }

    // The oldest entry of a lane.
    pub fn oldest<L: Lane>(self, c: L) -> Front
        requires inside { L.Inside self.ports c }
        requires entered { 0 < count (read self.ports (L.stretch c) self.bytes.now) }
        ensures { result ≡ front_of L.WIDTH (read self.entry.ports (L.stretch c) self.entry.bytes.now) }
    {
        let lane = self.part(c);
        Cursor::of(lane).front(lane, L::WIDTH)
    }

    // The pointers to o on a lane.
    pub fn on_lane(self, c: Pointers, o: u8) -> usize
        requires inside { (c.from < self.ports) × (c.to < self.ports) }
        requires low { count (read self.ports (pointers c.from c.to) self.bytes.now) ≤ pointer_places }
        ensures count { result ≡ pointers_to o (read self.entry.ports (pointers c.from c.to) self.entry.bytes.now) }
        ensures most { result ≤ pointer_places }
    {
        cursors::pointers_to(self.part(c), o)
    }

    // The pointers to o on all lanes to port p. Summed in a `for`: what the chain's closure needs of each port did not prove.
    pub fn on_way(self, p: usize, o: u8) -> usize
        requires inside { p < self.ports }
        requires low { LanesLow self.ports p self.bytes.now }
        ensures count { result ≡ on_way self.entry.ports p o self.entry.bytes.now }
        ensures most { result ≤ pointer_places * self.entry.ports }
    {
        let mut t: usize = 0;
        for a in 0..self.ports {
            t += self.on_lane(Pointers { from: a, to: p }, o);
        }
        t
    }
}
