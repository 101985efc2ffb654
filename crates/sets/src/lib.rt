// Sets of tasks or resources: document 01, "A set of tasks or resources is one unsigned number with a bit for each member, and its size
// is the number of ones". Every call answers for every number and every index: an index beyond the number's digits is in no set, and changes none.
#![tactic(auto)]

mod digits; // digits.rt: the numbers that hold a set
pub mod each; // each.rt: the members, one after the other

ghost use Rattle.std.specs.Prelude.{◌≡◌};
ghost use Rattle.sets.specs.Member.{width, has as isMember, with_of, without_of, size_of};

use digits::Digits;
use each::Members;

// Whether k is a member.
#[tactic(auto, using(crate::proofs::Operator::has_code))]
pub fn has<S: Digits>(set: S, k: u32) -> bool
    ensures { result ≡ isMember (S.value set) k }
{
    let digits = set.widened();
    if k < u64::BITS {
        return (digits >> k) & 1 == 1;
    }
    false
}

// The set with k among its members.
#[tactic(auto, using(crate::proofs::Change::with_beyond))]
pub fn with<S: Digits>(set: S, k: u32) -> S
    ensures { S.value result ≡ with_of S.WIDTH (S.value set) k }
{
    if k < S::WIDTH {
        return set.with_one(k);
    }
    set
}

// The set without k among its members.
#[tactic(auto, using(crate::proofs::Change::without_beyond))]
pub fn without(set: u32, k: u32) -> u32
    ensures { result ≡ without_of width set k }
{
    if k < u32::BITS {
        return set & !(1 << k);
    }
    set
}

// How many members there are.
#[tactic(auto, using(crate::proofs::Count::size_ones))]
pub fn size(set: u32) -> u32
    ensures { result ≡ size_of set }
{
    set.count_ones()
}

// The members, lowest first.
pub fn members(set: u32) -> Members
    ensures { result.rest ≡ set }
{
    Members { rest: set }
}
