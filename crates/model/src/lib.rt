// Sets of values (paper 01, "Words"): value v is a member where bit v is 1. A byte as a number.
#![tactic(auto)]

ghost use Rattle.std.specs.Prelude.{◌≡◌, ◌<◌, eqb};
ghost use Rattle.std.specs.Iterator.{at_most};
ghost use Rattle.model.specs.ValueSets.{has, full_mask, without_mask, only_mask, union_mask, common_mask, lowest_of};
ghost use Rattle.model.specs.EachMember.{NextMember};

pub mod refusals; // refusals.rt: the questions, and a refusal

// A byte as a number, and that it is one: as an index, and as an element of an array of numbers.
pub fn wide(x: u8) -> usize
    ensures { (result ≡ x) × (result < 256) }
{
    x as usize
}

pub fn long(x: u8) -> u64
    ensures { (result ≡ x) × (result < 256) }
{
    x as u64
}

#[derive(Clone, Copy, Debug, PartialEq, Eq)]
pub struct ValueSet {
    pub bits: u16,
}

impl ValueSet {
    pub const EMPTY: ValueSet = ValueSet { bits: 0 };

    // The values below width; a width above 16 counts as 16.
    pub fn full(width: u16) -> Self
        ensures { result.bits ≡ full_mask width }
    {
        if width < 16 {
            ValueSet {
                bits: (1u16 << width) - 1,
            }
        } else {
            ValueSet { bits: 65535 }
        }
    }

    // The lowest member, and 16 of the empty set.
    pub fn lowest(self) -> u32
        ensures { result ≡ lowest_of self.bits }
    {
        u16::trailing_zeros(self.bits)
    }

    pub fn contains(self, v: u16) -> bool
        ensures { result ≡ has self.bits v }
    {
        if v < 16 {
            (self.bits >> v) & 1 == 1
        } else {
            false
        }
    }

    pub fn without(self, v: u16) -> Self
        ensures { result.bits ≡ without_mask self.bits v }
    {
        if v < 16 {
            ValueSet {
                bits: self.bits & !(1u16 << v),
            }
        } else {
            self
        }
    }

    // The members, ascending.
    pub fn members(self) -> EachMember
        ensures { result.left.bits ≡ self.bits }
    {
        EachMember { left: self }
    }

    // All members but the lowest.
    pub fn without_lowest(self) -> Self
        ensures { result.bits ≡ without_mask self.bits (lowest_of self.bits) }
    {
        if self.bits == 0 {
            self
        } else {
            ValueSet {
                bits: self.bits & (self.bits - 1),
            }
        }
    }

    pub fn only(self, v: u16) -> Self
        ensures { result.bits ≡ only_mask self.bits v }
    {
        if v < 16 {
            ValueSet {
                bits: self.bits & (1u16 << v),
            }
        } else {
            ValueSet::EMPTY
        }
    }

    pub fn union(self, other: ValueSet) -> Self
        ensures { result.bits ≡ union_mask self.bits other.bits }
    {
        ValueSet {
            bits: self.bits | other.bits,
        }
    }

    pub fn common(self, other: ValueSet) -> Self
        ensures { result.bits ≡ common_mask self.bits other.bits }
    {
        ValueSet {
            bits: self.bits & other.bits,
        }
    }

    pub fn is_empty(self) -> bool
        ensures { result ≡ eqb self.bits 0 }
    {
        self.bits == 0
    }
}

// The members of a set that are still to come, ascending.
#[derive(Clone, Copy, Debug)]
pub struct EachMember {
    pub left: ValueSet,
}

impl Iterator for EachMember {
    type Item = u32;

    ghost next_gives = { λ old member new. NextMember old.left.bits member new.left.bits };

    ghost remaining = { λ here. at_most here.left.bits };

    fn next(&mut self) -> Option<u32> {
        if self.left.bits == 0 {
            return None;
        }
        let lowest = self.left.lowest();
        self.left = self.left.without_lowest();
        Some(lowest)
    }
}
