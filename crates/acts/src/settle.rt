// SETTLE, and the settling number.
ghost use Rattle.std.specs.Prelude.{◌≡◌, ◌*◌, ◌≤◌, ◌<◌};
ghost use Rattle.books.specs.Numbers.{sum_to};
ghost use Rattle.lanes.specs.Lane.{count};
ghost use Rattle.store.specs.Layout.{read};
ghost use Rattle.machine.specs.Acts.{act, SETTLE};
ghost use Rattle.machine.specs.Effects.{settling};
ghost use Rattle.machine.specs.Machine.{does};
ghost use Rattle.acts.specs.Ready.{Ready};
ghost use Rattle.acts.specs.Replies.{numbers};

use crate::Refusal;
use stretches::reads::Store;
use stretches::stretch::{Lane, Pointers, Reports};

// The entries of the lanes of a kind from port a; a byte counts a lane's. Summed in a `for`, here and below: what the chain's closure
// and its sum need of each lane did not prove.
#[tactic(auto, using(books::proofs::Numbers::sum_more), unfolding(books::specs::Numbers::sum_to))]
fn entries_from<L: Lane>(store: Store<'_>, a: usize) -> usize
    requires { a < store.ports }
    ensures count { result ≡ sum_to store.entry.ports (λ b. count (read store.entry.ports (L.stretch (L.between a b)) store.entry.bytes.now)) }
    ensures most { result ≤ 255 * store.entry.ports }
{
    let mut t: usize = 0;
    for b in 0..store.ports {
        t += store.count(L::between(a, b)) as usize;
    }
    t
}

// The entries of all lanes of a kind, ports being at most 16.
#[tactic(auto, using(books::proofs::Numbers::sum_more), unfolding(books::specs::Numbers::sum_to))]
fn entries<L: Lane>(store: Store<'_>) -> usize
    ensures count { result ≡ sum_to store.entry.ports (λ a. sum_to store.entry.ports (λ b. count (read store.entry.ports (L.stretch (L.between a b)) store.entry.bytes.now))) }
    ensures most { result ≤ 255 * 16 * store.entry.ports }
{
    let mut t: usize = 0;
    for a in 0..store.ports {
        t += entries_from::<L>(store, a);
    }
    t
}

// The settling number: twice the pointers on all pointer lanes plus the reports on all report lanes.
#[tactic(auto, unfolding(machine::specs::Effects::settling))]
pub fn settling(store: Store<'_>) -> u32
    ensures { result ≡ settling store.entry.ports store.entry.bytes.now }
{
    (2 * entries::<Pointers>(store) + entries::<Reports>(store)) as u32
}

// SETTLE: the settling number. It names nothing, and a store that passed the full check refuses it nothing.
#[tactic(auto, using(machine::proofs::Outcomes::takes), unfolding(machine::specs::Machine::rule, machine::specs::Effects::after, machine::specs::Effects::value_of))]
pub fn settle(store: Store<'_>, a: u32, o: u32, b: u32) -> Result<u32, Refusal>
    requires { Ready store.ports store.bytes.now }
    ensures { record { answer = numbers result; bytes = store.entry.bytes.now } ≡ does store.entry.ports (act SETTLE a o b) store.entry.bytes.now }
{
    Ok(settling(store))
}
