// HOLD, which changes nothing, like ASK and SETTLE beside it.
ghost use Rattle.std.specs.Prelude.{◌≡◌};
ghost use Rattle.machine.specs.Acts.{act, HOLD};
ghost use Rattle.acts.specs.Replies.{numbers};
ghost use Rattle.machine.specs.Machine.{does};
ghost use Rattle.acts.specs.Ready.{Ready};

use crate::Refusal;
use stretches::reads::Store;
use stretches::stretch::{Held, Object};

// HOLD A o: port A's true holding of o.
pub fn hold(store: Store<'_>, a: u32, o: u32, b: u32) -> Result<u32, Refusal>
    requires { Ready store.ports store.bytes.now }
    ensures { record { answer = numbers result; bytes = store.entry.bytes.now } ≡ does store.entry.ports (act HOLD a o b) store.entry.bytes.now }
{
    if store.ports as u32 <= a {
        return Err(Refusal::NoSuchPort);
    }
    let o = Object::try_from(o)?;
    if store.home(o).is_none() {
        return Err(Refusal::NotInUse);
    }
    Ok(store.holding_of(Held { port: a as usize }, o) as u32)
}
