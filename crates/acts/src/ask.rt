// ASK: whether an object is absent, as its home has heard.
ghost use Rattle.std.specs.Prelude.{◌≡◌, ◌<◌, ◌&&◌, not, eqb, ltb};
ghost use Rattle.books.specs.Numbers.{some};
ghost use Rattle.books.specs.Books.{transit_zero};
ghost use Rattle.store.specs.Store.{object_byte, home, heard_of, transit_of};
ghost use Rattle.machine.specs.Acts.{act, ASK};
ghost use Rattle.machine.specs.Effects.{verdict_on};
ghost use Rattle.machine.specs.Machine.{does};
ghost use Rattle.acts.specs.Ready.{Ready};
ghost use Rattle.acts.specs.Replies.{numbers};
ghost use Rattle.acts.specs.Verdicts.{number_of};

use crate::Refusal;
use counters::Ports;
use stretches::reads::Store;
use stretches::stretch::{Heard, Object, Transits};

// What the home answers of an object, with document 01's numbers. Early: some port's receipts are heard before their sends.
#[derive(Clone, Copy, Debug, PartialEq, Eq)]
pub enum Verdict {
    InUse = 0,
    Absent = 1,
    Early = 2,
}

// Has a port other than the home a heard holding of o above 0?
fn held_away(store: Store<'_>, o: Object) -> bool
    requires { ¬ (object_byte store.ports o.number store.bytes.now ≡ 0) }
    ensures { result ≡ some store.entry.ports (λ p. not (eqb p (home store.entry.ports o.number store.entry.bytes.now)) && ltb 0 (heard_of store.entry.ports p o.number store.entry.bytes.now)) }
{
    let home = store.home(o);
    (0..store.ports).any(|p| home != Some(p) && store.holding_of(Heard { port: p }, o) > 0)
}

// Has any port a heard transit of o above 0?
fn transit_above(store: Store<'_>, o: Object) -> bool
    requires { 0 < store.ports }
    ensures { result ≡ some store.entry.ports (λ p. ltb (transit_zero store.entry.ports) (transit_of store.entry.ports p o.number store.entry.bytes.now)) }
{
    let zero = Ports(store.ports).zero() as u16;
    (0..store.ports).any(|p| store.transit_of(Transits { port: p }, o) > zero)
}

// Has any port a heard transit of o below 0?
fn transit_below(store: Store<'_>, o: Object) -> bool
    requires { 0 < store.ports }
    ensures { result ≡ some store.entry.ports (λ p. ltb (transit_of store.entry.ports p o.number store.entry.bytes.now) (transit_zero store.entry.ports)) }
{
    let zero = Ports(store.ports).zero() as u16;
    (0..store.ports).any(|p| store.transit_of(Transits { port: p }, o) < zero)
}

// The home's verdict on an object in use.
#[tactic(auto, unfolding(machine::specs::Effects::verdict_on, books::specs::Books::verdict))]
pub fn verdict_on(store: Store<'_>, o: Object) -> Verdict
    requires some { 0 < store.ports }
    requires used { ¬ (object_byte store.ports o.number store.bytes.now ≡ 0) }
    ensures { number_of result ≡ verdict_on store.entry.ports o.number store.entry.bytes.now }
{
    if held_away(store, o) || transit_above(store, o) {
        Verdict::InUse
    } else if transit_below(store, o) {
        Verdict::Early
    } else {
        Verdict::Absent
    }
}

// ASK o: the home's verdict on o.
pub fn ask(store: Store<'_>, a: u32, o: u32, b: u32) -> Result<u32, Refusal>
    requires { Ready store.ports store.bytes.now }
    ensures { record { answer = numbers result; bytes = store.entry.bytes.now } ≡ does store.entry.ports (act ASK a o b) store.entry.bytes.now }
{
    let o = Object::try_from(o)?;
    if store.home(o).is_none() {
        return Err(Refusal::NotInUse);
    }
    Ok(verdict_on(store, o) as u32)
}
