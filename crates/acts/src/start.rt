// START.
ghost use Rattle.std.specs.Prelude.{◌≡◌};
ghost use Rattle.machine.specs.Machine.{start};
ghost use Rattle.acts.specs.Replies.{numbers};

use crate::Refusal;

// START: a buffer of the right size becomes fresh; another is refused with 1 and not written.
pub fn start(store: &mut [u8]) -> Result<u32, Refusal>
    ensures { record { answer = numbers result; bytes = store.new } ≡ start 8 store.old }
{
    if form::start::fresh(store) {
        Ok(0)
    } else {
        Err(Refusal::NotWellFormed)
    }
}
