// The work on a set's bits, for callers that know the set and the number to be in range.
ghost use Rattle.std.specs.Prelude.{◌≡◌, Bool, ℕ, ◌^◌, ◌≤◌, ◌<◌, length};
ghost use Rattle.laws.specs.Lists.{elem};
ghost use Rattle.laws.specs.Bits.{has};
ghost use Rattle.laws.specs.inner.Bits.{Member, Top};
ghost use Rattle.text.specs.Over.{Put};
ghost use Rattle.action.specs.Known.{actions, known_front};
ghost use Rattle.action_set.specs.Sets.{SetIn, with_of, without_of, keep_of, size_of, set_of, members_of, nth_of};

use action::ACTIONS;

pub fn bit(n: u8) -> u32
    requires { n < actions }
    ensures { result ≡ 2 ^ n }
{
    1u32 << n
}

// Of any number.
pub fn holds(s: u32, n: u8) -> bool
    requires { n < actions }
    ensures { result ≡ has s n }
{
    (s >> n) % 2 == 1
}

// The bits of a set that is inside the limit. The public `ActionSet` takes any number.
#[derive(Clone, Copy, Debug, PartialEq, Eq)]
pub struct Bits {
    pub bits: u32,
    ghost inside: { SetIn bits },
}

impl Bits {
    pub fn add(self, n: u8) -> Bits
        requires { n < actions }
        ensures { result.bits ≡ with_of self.bits n }
    {
        Bits {
            bits: self.bits | bit(n),
        }
    }

    pub fn remove(self, n: u8) -> Bits
        requires { n < actions }
        ensures { result.bits ≡ without_of self.bits n }
    {
        Bits {
            bits: self.bits - (self.bits & bit(n)),
        }
    }

    pub fn size(self) -> u32
        ensures { result ≡ size_of self.bits }
    {
        self.bits.count_ones()
    }

    // The highest member.
    pub fn top(self) -> u8
        requires { 0 < self.bits }
        ensures { Top self.bits result }
    {
        (31 - self.bits.leading_zeros()) as u8
    }

    // The member that draw n names: the members above it are taken off, and it is the highest of the rest.
    pub fn nth(self, n: u8) -> u8
        requires { n < size_of self.bits }
        ensures { result ≡ nth_of self.bits n }
    {
        let mut remaining = self;
        for _ in 0..n {
            remaining = remaining.remove(remaining.top());
        }
        remaining.top()
    }

    // The member that a walk takes next: the lowest, as the table runs. Which one decides the walk's direction, and no answer.
    pub fn next(self) -> u8
        requires { 0 < self.bits }
        ensures { Member actions self.bits result }
    {
        self.bits.trailing_zeros() as u8
    }

    // The walk over a set: each member is taken off what remains, tested, and dropped if it fails.
    // A `while`, since it counts nothing: it goes from member to member. Inlined, since the moves are found by it in the inner loops.
    #[inline(always)]
    pub fn keep<F: Fn(u8) -> bool>(self, test: F) -> Bits
        requires { (n : ℕ) → n < actions → F.pre test n }
        ensures { (p : ℕ → Bool) → ((n : ℕ) (b : Bool) → n < actions → F.post test n b → b ≡ p n) → result.bits ≡ keep_of p self.bits }
    {
        let mut kept = self.bits;
        let mut remaining = self.bits;
        while remaining != 0 {
            let n = Bits { bits: remaining }.next();
            let b = bit(n);
            remaining -= b;
            if !test(n) {
                kept -= b;
            }
        }
        Bits { bits: kept }
    }
}

pub fn of_list(list: &[u8]) -> Bits
    requires { length list.now ≤ known_front list.now }
    ensures { result.bits ≡ set_of (elem list.now) }
{
    let mut s = Bits { bits: 0 };
    for n in list {
        s = s.add(*n);
    }
    s
}

// Of any number.
pub fn put_members(s: u32, out: &mut [u8]) -> usize
    requires { size_of s ≤ length out.old }
    ensures { Put out.old 0 (members_of s) result out.new }
{
    let mut at: usize = 0;
    for m in 0..ACTIONS {
        if holds(s, m) {
            out[at] = m;
            at += 1;
        }
    }
    at
}
