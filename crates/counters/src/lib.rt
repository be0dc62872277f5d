// The home's books: the two counters, and a port's rows of them. n is the number of ports.
#![tactic(auto)]

ghost use Rattle.std.specs.Prelude.{◌≡◌, true, ◌+◌, ◌*◌, ◌≤◌, ◌<◌, length, get_or, pos};
ghost use Rattle.paper.specs.Paper.{send, receive, create, delete};
ghost use Rattle.books.specs.Books.{transit_zero, transit_top, transit_at, set_transit, transit_effect, holding_effect};
ghost use Rattle.books.specs.Fits.{transit_fits, holding_fits};
ghost use Rattle.counters.specs.Counters.{TransitIn, kind_of, counted, stored_as, within, transit_step, holding_step};

use std::marker::Model;

// Table 1 of document 004: the events s, r, + and -, with document 01's numbers for them.
#[derive(Clone, Copy)]
pub enum Event {
    Send = 0,
    Receive = 1,
    Create = 2,
    Delete = 3,
}

// The holding of an object at a port.
#[derive(Clone, Copy)]
pub struct Holding(pub u8);

impl Holding {
    // One more, or none where that is out of range.
    pub fn raised(self) -> Option<Holding>
        ensures { result ≡ holding_step create self.0 }
    {
        (self.0 < 200).then(|| Holding(self.0 + 1))
    }

    // One less, or none where that is out of range.
    pub fn lowered(self) -> Option<Holding>
        ensures { result ≡ holding_step delete self.0 }
    {
        self.0.checked_sub(1).map(Holding)
    }

    // After an event that happens or is heard.
    pub fn after(self, e: Event) -> Option<Holding>
        ensures { result ≡ holding_step (kind_of e) self.0 }
    {
        match e {
            Event::Send => Some(self),
            Event::Receive | Event::Create => self.raised(),
            Event::Delete => self.lowered(),
        }
    }
}

// A number of ports that the counters' types have room for.
#[derive(Clone, Copy)]
pub struct Ports(pub usize);

// A clause sees the number.
impl Model for Ports {
    ghost use Rattle.std.specs.Prelude.{ℕ};
    ghost use Rattle.counters.specs.Counters.{Ports};

    ghost Value = { ℕ };

    ghost view = { λ p. p.0 };

    ghost invariant = { λ p. Ports p.0 };

    ghost inverse = { λ n. record { 0 = n } };
}

impl Ports {
    // What a transit is stored plus.
    pub fn zero(self) -> i16
        ensures { result ≡ pos (transit_zero self) }
    {
        (32 * (self.0 - 1)) as i16
    }

    // The greatest number that is stored.
    fn top(self) -> u16
        ensures { result ≡ transit_top self }
    {
        (32 * (self.0 - 1) + 16 * (self.0 + 1)) as u16
    }

    // The count that a stored number stands for.
    fn counted(self, k: u16) -> i16
        requires { k ≤ transit_top self }
        ensures { result ≡ counted self k }
    {
        (k as i16) - self.zero()
    }

    // The transit of count z, or none where z is out of range.
    fn within(self, z: i16) -> Option<Transit>
        ensures { result ≡ within self z }
    {
        if z < self.counted(0) || self.counted(self.top()) < z {
            return None;
        }
        Some(Transit(z, self))
    }
}

// The heard transit of an object to a port, of so many ports: signed, in the range that they give, and no Holding. The two counters
// stay apart, here and above: document 01 asks for two types, and range, bytes and row of Table 3 differ, not a type alone.
#[derive(Clone, Copy)]
pub struct Transit(pub i16, pub Ports);

// A clause sees the number of ports and the count.
impl Model for Transit {
    ghost use Rattle.std.specs.Prelude.{◌≡◌, true};
    ghost use Rattle.counters.specs.Counters.{HeardTransit, in_range};

    ghost Value = { HeardTransit };

    ghost view = { λ t. record { ports = t.1; count = t.0 } };

    ghost invariant = { λ t. in_range t.1 t.0 ≡ true };

    ghost inverse = { λ c. record { 0 = c.count; 1 = c.ports } };
}

impl Transit {
    // One more, or none where that is out of range.
    pub fn raised(self) -> Option<Transit>
        ensures { result ≡ transit_step send self }
    {
        let Transit(z, ports) = self;
        ports.within(z + 1)
    }

    // One less, or none where that is out of range.
    pub fn lowered(self) -> Option<Transit>
        ensures { result ≡ transit_step receive self }
    {
        let Transit(z, ports) = self;
        ports.within(z - 1)
    }

    // After an event that is heard.
    pub fn after(self, e: Event) -> Option<Transit>
        ensures { result ≡ transit_step (kind_of e) self }
    {
        match e {
            Event::Send => self.raised(),
            Event::Receive => self.lowered(),
            Event::Create | Event::Delete => Some(self),
        }
    }

    // What the store holds for it.
    fn stored(self) -> u16
        ensures { result ≡ stored_as self.ports self.count }
    {
        let Transit(z, ports) = self;
        (z + ports.zero()) as u16
    }

    // o's transit in a port's row.
    pub fn read(row: &[u8], o: usize, n: usize) -> Transit
        requires { TransitIn n o row.now }
        ensures { result ≡ record { ports = n; count = counted n (transit_at o row.now) } }
    {
        let ports = Ports(n);
        Transit(ports.counted(transit_at(row, o)), ports)
    }

    // It becomes o's transit in a port's row.
    #[tactic(auto, unfolding(books::specs::Books::set_transit))]
    pub fn write(self, row: &mut [u8], o: usize)
        requires { 2 * o + 1 < length row.old }
        ensures { row.new ≡ set_transit o (stored_as self.ports self.count) row.old }
    {
        let [low, high] = self.stored().to_le_bytes();
        row[2 * o] = low;
        row[2 * o + 1] = high;
    }
}

// o's transit in a port's row as it is stored. A row and a place in it stay a slice and an index, lent to be read or to be written: a
// type would be two, and no plainer.
pub fn transit_at(row: &[u8], o: usize) -> u16
    requires { 2 * o + 1 < length row.now }
    ensures { result ≡ transit_at o row.now }
{
    u16::from_le_bytes([row[2 * o], row[2 * o + 1]])
}

// Does an event, heard, leave o's transit in range?
pub fn transit_fits(e: Event, row: &[u8], o: usize, n: usize) -> bool
    requires { TransitIn n o row.now }
    ensures { result ≡ transit_fits n (kind_of e) (transit_at o row.now) }
{
    Transit::read(row, o, n).after(e).is_some()
}

// An event that leaves it in range is heard.
#[tactic(auto, unfolding(books::specs::Books::transit_effect, books::specs::Books::set_transit))]
pub fn transit_effect(e: Event, row: &mut [u8], o: usize, n: usize)
    requires { TransitIn n o row.old × (transit_fits n (kind_of e) (transit_at o row.old) ≡ true) }
    ensures { row.new ≡ transit_effect (kind_of e) o row.old }
{
    // + and - write no byte
    if matches!(e, Event::Create | Event::Delete) {
        return;
    }
    if let Some(t) = Transit::read(row, o, n).after(e) {
        t.write(row, o);
    }
}

// o's holding in a port's row; here and below apart from the transit, as each effect takes its own.
pub fn holding_at(row: &[u8], o: usize) -> u8
    requires { o < length row.now }
    ensures { result ≡ get_or row.now o 0 }
{
    row[o]
}

// Does an event, as it happens or is heard, leave o's holding in range?
pub fn holding_fits(e: Event, row: &[u8], o: usize) -> bool
    requires { o < length row.now }
    ensures { result ≡ holding_fits (kind_of e) (get_or row.now o 0) }
{
    Holding(row[o]).after(e).is_some()
}

// An event that leaves it in range happens or is heard.
#[tactic(auto, unfolding(books::specs::Books::holding_effect))]
pub fn holding_effect(e: Event, row: &mut [u8], o: usize)
    requires { (o < length row.old) × (holding_fits (kind_of e) (get_or row.old o 0) ≡ true) }
    ensures { row.new ≡ holding_effect (kind_of e) o row.old }
{
    // an s writes no byte
    if matches!(e, Event::Send) {
        return;
    }
    if let Some(h) = Holding(row[o]).after(e) {
        row[o] = h.0;
    }
}
