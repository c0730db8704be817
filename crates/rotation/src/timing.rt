// A list's macro time.
ghost use Rattle.std.specs.Prelude.{◌≡◌, ◌≤◌, length};
ghost use Rattle.refusal.specs.Judge.{size_most};
ghost use Rattle.rotation.specs.Seconds.{waits_of, seconds_of};

// The waits of some actions in seconds.
fn waits(actions: &[u8]) -> u32
    requires { length actions.now ≤ size_most }
    ensures { result ≡ waits_of actions.now }
{
    actions
        .iter()
        .map(|n| u32::from(action::wait(action::attributes_of(*n))))
        .sum()
}

// Those of a list without the last: the craft is over when that is used.
#[tactic(auto, using(crate::specs::laws::Seconds::seconds_front, crate::specs::laws::Seconds::seconds_most))]
pub fn seconds(list: &[u8]) -> u32
    requires { length list.now ≤ size_most }
    ensures { result ≡ seconds_of list.now }
{
    match list.split_last() {
        Some((_, front)) => waits(front),
        None => 0,
    }
}
