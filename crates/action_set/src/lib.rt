// Sets of actions: 31 bits, bit n for action n. Every method takes any number, and refuses what is outside the limits.

#![tactic(auto, unfolding(refusal::specs::Judge::judged))]

ghost use Rattle.std.specs.Prelude.{◌≡◌};
ghost use Rattle.refusal.specs.Judge.{checks_of};
ghost use Rattle.action_set.specs.Sets.{member_tests};
ghost use Rattle.action_set.specs.Entries.{empty_set, ChecksSet, FromBits, FromList, Contains, Added, Removed, Len, IsEmpty, HighestIs, Members};

use bits::Bits;
use refusal::Refusal;

pub mod bits;

#[derive(Clone, Copy, Debug, PartialEq, Eq)]
pub struct ActionSet(pub u32);

// Refusals 1 and 3, of a set and an action.
pub fn check_member(set: ActionSet, n: u8) -> Result<(), Refusal>
    ensures { result ≡ checks_of (member_tests set.0 n) }
{
    set.check()?;
    action::check_action(n)
}

impl ActionSet {
    // Bit 31, and what lies above.
    pub const LIMIT: u32 = 0x8000_0000;

    // The empty set.
    pub fn new() -> ActionSet
        ensures { result ≡ empty_set }
    {
        ActionSet(0)
    }

    // Refusal 1: bit 31 is set. The place of a set alone is 0.
    pub fn check(self) -> Result<(), Refusal>
        ensures { ChecksSet self.0 result }
    {
        if self.0 < ActionSet::LIMIT {
            return Ok(());
        }
        Err(Refusal::OutsideLimits(0))
    }

    pub fn from_bits(bits: u32) -> Result<ActionSet, Refusal>
        ensures { FromBits bits result }
    {
        ActionSet(bits).check()?;
        Ok(ActionSet(bits))
    }

    pub fn from_list(list: &[u8]) -> Result<ActionSet, Refusal>
        ensures { FromList list.now result }
    {
        action::check_list(list)?;
        Ok(ActionSet(bits::of_list(list).bits))
    }

    pub fn contains(self, n: u8) -> Result<bool, Refusal>
        ensures { Contains self.0 n result }
    {
        check_member(self, n)?;
        Ok(bits::holds(self.0, n))
    }

    pub fn set(self, n: u8) -> Result<ActionSet, Refusal>
        ensures { Added self.0 n result }
    {
        check_member(self, n)?;
        Ok(ActionSet(Bits { bits: self.0 }.add(n).bits))
    }

    pub fn unset(self, n: u8) -> Result<ActionSet, Refusal>
        ensures { Removed self.0 n result }
    {
        check_member(self, n)?;
        Ok(ActionSet(Bits { bits: self.0 }.remove(n).bits))
    }

    pub fn len(self) -> Result<u32, Refusal>
        ensures { Len self.0 result }
    {
        self.check()?;
        Ok(Bits { bits: self.0 }.size())
    }

    pub fn is_empty(self) -> Result<bool, Refusal>
        ensures { IsEmpty self.0 result }
    {
        self.check()?;
        Ok(Bits { bits: self.0 }.size() == 0)
    }

    // None of the empty set.
    pub fn highest(self) -> Result<Option<u8>, Refusal>
        ensures { HighestIs self.0 result }
    {
        self.check()?;
        if self.0 == 0 {
            return Ok(None);
        }
        Ok(Some(Bits { bits: self.0 }.top()))
    }

    // In rising order. Returns how many.
    pub fn members(self, out: &mut [u8]) -> Result<usize, Refusal>
        ensures { Members self.0 out.old result out.new }
    {
        self.check()?;
        refusal::check_room(out.len(), Bits { bits: self.0 }.size() as usize)?;
        Ok(bits::put_members(self.0, out))
    }
}
