// Refusal 3: an action number above 30.
ghost use Rattle.std.specs.Prelude.{◌≡◌};
ghost use Rattle.refusal.specs.Judge.{checked_of};
ghost use Rattle.action.specs.Known.{action_test, list_test};

use super::ACTIONS;
use refusal::Refusal;

pub fn check_action(n: u8) -> Result<(), Refusal>
    ensures { result ≡ checked_of (action_test n) }
{
    if n < ACTIONS {
        return Ok(());
    }
    Err(Refusal::UnknownAction(0))
}

// The whole list, and the first place where it fails. A list that passes stays the caller's bytes, and who goes over it asks `known_front` of it.
pub fn check_list(list: &[u8]) -> Result<(), Refusal>
    ensures { result ≡ checked_of (list_test list.now) }
{
    for (i, n) in list.iter().enumerate() {
        if *n >= ACTIONS {
            return Err(Refusal::UnknownAction(i));
        }
    }
    Ok(())
}
