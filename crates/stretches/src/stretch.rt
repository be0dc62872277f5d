// The stretches of a store of so many ports, each a value that knows its bytes and where it begins.
ghost use Rattle.std.specs.Prelude.{◌≡◌, refl, ℕ, ◌+◌, ◌*◌, ◌≤◌, ◌<◌, MatchResult};
ghost use Rattle.std.proofs.Common.{rules};
ghost use Rattle.books.specs.Books.{object_limit};
ghost use Rattle.lanes.specs.Lane.{pointer_width, report_width, pointer_places, report_places};
ghost use Rattle.store.specs.Layout.{Stretch as Laid, objects, held, heard, transit, pointers, reports, long};
ghost use Rattle.stretches.specs.Stretches.{Few, Begins, Numbered, LaneSized};

pub const OBJECTS: usize = 64; // objects, and so the bytes of a row of holdings

const TRANSITS: usize = 2 * OBJECTS; // the bytes of a row of transits

const POINTER_LANE: usize = 17; // the bytes of a pointer lane

const REPORT_LANE: usize = 65; // the bytes of a report lane

// An object's number.
#[derive(Clone, Copy, Debug, PartialEq, Eq)]
pub struct Object {
    pub number: usize,
    pub ghost low: { number < object_limit },
}

// A number that is no object's.
#[derive(Clone, Copy, Debug, PartialEq, Eq)]
pub struct NoObject(pub u32);

impl TryFrom<u32> for Object {
    type Error = NoObject;

    ghost try_from_gives = { λ o r. MatchResult r (λ x. x.number ≡ o) (λ e. (object_limit ≤ o) × (e.0 ≡ o)) };

    fn try_from(o: u32) -> Result<Object, NoObject> {
        if (o as usize) < OBJECTS {
            Ok(Object { number: o as usize })
        } else {
            Err(NoObject(o))
        }
    }
}

// A stretch: the one that is meant, whether a store of n ports has it, its bytes and where it begins. That it lies inside stays a clause
// of each function: it is of two values, the stretch and the store, and a const number of ports would ask more of callers.
pub trait Stretch: Copy {
    ghost stretch: { Self → Laid };

    ghost Inside: { ℕ → Self → Type 0 };

    ghost BYTES: { ℕ };

    const BYTES: usize;

    // Where it begins in a store of so many ports.
    fn place(self, ports: usize) -> usize
        requires few { Few ports }
        requires inside { Inside ports self }
        ensures { Begins ports (stretch self) result };

    ghost bytes: { (n : ℕ) (c : Self) → long n (stretch c) ≡ BYTES };
}

// A row of holdings: a byte for each object.
pub trait Holdings: Stretch {
    ghost each: { Self.BYTES ≡ object_limit };
}

// A lane: the one between two ports, the bytes of its entries, and how many have room.
pub trait Lane: Stretch {
    ghost between: { ℕ → ℕ → Self };

    ghost WIDTH: { ℕ };

    ghost PLACES: { ℕ };

    const WIDTH: usize;

    const PLACES: usize;

    // The lane from a port to another.
    fn between(from: usize, to: usize) -> Self
        ensures { result ≡ between from to };

    ghost sized: { LaneSized Self.BYTES WIDTH PLACES };

    ghost inside: { (n a b : ℕ) → a < n → b < n → Self.Inside n (between a b) };
}

// The object bytes.
#[derive(Clone, Copy)]
pub struct Objects;

impl Stretch for Objects {
    ghost stretch = { λ _. objects };

    ghost Inside = { λ _ _. Unit {0} };

    ghost BYTES = { object_limit };

    const BYTES: usize = OBJECTS;

    fn place(self, ports: usize) -> usize {
        0
    }

    ghost bytes = { λ n c. refl };
}

// A port's true holdings.
#[derive(Clone, Copy)]
pub struct Held {
    pub port: usize,
}

impl Stretch for Held {
    ghost stretch = { λ c. held c.port };

    ghost Inside = { λ n c. c.port < n };

    ghost BYTES = { object_limit };

    const BYTES: usize = OBJECTS;

    fn place(self, ports: usize) -> usize {
        OBJECTS + OBJECTS * self.port
    }

    ghost bytes = { λ n c. refl };
}

impl Holdings for Held {
    ghost each = { refl };
}

// A port's heard holdings.
#[derive(Clone, Copy)]
pub struct Heard {
    pub port: usize,
}

impl Stretch for Heard {
    ghost stretch = { λ c. heard c.port };

    ghost Inside = { λ n c. c.port < n };

    ghost BYTES = { object_limit };

    const BYTES: usize = OBJECTS;

    fn place(self, ports: usize) -> usize {
        OBJECTS + OBJECTS * ports + OBJECTS * self.port
    }

    ghost bytes = { λ n c. refl };
}

impl Holdings for Heard {
    ghost each = { refl };
}

// A port's heard transits.
#[derive(Clone, Copy)]
pub struct Transits {
    pub port: usize,
}

impl Stretch for Transits {
    ghost stretch = { λ c. transit c.port };

    ghost Inside = { λ n c. c.port < n };

    ghost BYTES = { 2 * object_limit };

    const BYTES: usize = TRANSITS;

    fn place(self, ports: usize) -> usize {
        OBJECTS + 2 * OBJECTS * ports + TRANSITS * self.port
    }

    ghost bytes = { λ n c. refl };
}

// The number of the lane from port a to port b among all lanes of its kind.
fn lane_number(n: usize, a: usize, b: usize) -> usize
    requires { Few n × ((a < n) × (b < n)) }
    ensures { Numbered n a b result }
{
    n * a + b
}

// The pointer lane from a port to another.
#[derive(Clone, Copy)]
pub struct Pointers {
    pub from: usize,
    pub to: usize,
}

impl Stretch for Pointers {
    ghost stretch = { λ c. pointers c.from c.to };

    ghost Inside = { λ n c. (c.from < n) × (c.to < n) };

    ghost BYTES = { 1 + pointer_width * pointer_places };

    const BYTES: usize = POINTER_LANE;

    fn place(self, ports: usize) -> usize {
        OBJECTS + 4 * OBJECTS * ports + POINTER_LANE * lane_number(ports, self.from, self.to)
    }

    ghost bytes = { λ n c. refl };
}

impl Lane for Pointers {
    ghost between = { λ a b. record { from = a; to = b } };

    ghost WIDTH = { pointer_width };

    ghost PLACES = { pointer_places };

    const WIDTH: usize = 1;

    const PLACES: usize = 16;

    fn between(from: usize, to: usize) -> Self {
        Pointers { from, to }
    }

    ghost sized = { Prim.search rules };

    ghost inside = { λ n a b h k. (h, k) };
}

// The report lane from a port to another.
#[derive(Clone, Copy)]
pub struct Reports {
    pub from: usize,
    pub to: usize,
}

impl Stretch for Reports {
    ghost stretch = { λ c. reports c.from c.to };

    ghost Inside = { λ n c. (c.from < n) × (c.to < n) };

    ghost BYTES = { 1 + report_width * report_places };

    const BYTES: usize = REPORT_LANE;

    fn place(self, ports: usize) -> usize {
        let i = lane_number(ports, self.from, self.to);
        OBJECTS + 4 * OBJECTS * ports + POINTER_LANE * (ports * ports) + REPORT_LANE * i
    }

    ghost bytes = { λ n c. refl };
}

impl Lane for Reports {
    ghost between = { λ a b. record { from = a; to = b } };

    ghost WIDTH = { report_width };

    ghost PLACES = { report_places };

    const WIDTH: usize = 2;

    const PLACES: usize = 32;

    fn between(from: usize, to: usize) -> Self {
        Reports { from, to }
    }

    ghost sized = { Prim.search rules };

    ghost inside = { λ n a b h k. (h, k) };
}
