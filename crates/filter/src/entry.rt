// The scan of a nogood list takes one entry at a time, on sixteen lent sets of which the first n count. Each function does the same work
// whatever the sets; whoever feeds the entries builds no list. What a row of such steps comes to is in proofs/Scan.antt.
ghost use Rattle.std.specs.Prelude.{◌≡◌, ◌<◌, set};
ghost use Rattle.model.specs.Lists.{at};
ghost use Rattle.model.specs.ValueSets.{only_mask};
ghost use Rattle.model.specs.Nogood.{equality, disequality};
ghost use Rattle.filter.specs.Inner.Scan.{Stepped, Changed};

use model::ValueSet;

// What one entry comes to.
#[derive(Clone, Copy, Debug, PartialEq, Eq)]
pub enum Step {
    // The next entry is due.
    Next,
    // A set is empty: no assignment obeys.
    Failed,
    // Every assignment breaks the equality, so it obeys whatever comes after.
    Obeyed,
    // Some assignments keep the equality, and some break it.
    Split,
}

// A disequality: the variable loses the value.
pub fn disequality(sets: &mut [u16; 16], x: usize, v: u8) -> Step
    requires { x < 16 }
    ensures { Stepped sets.old (disequality x v) sets.new result }
{
    let set = ValueSet { bits: sets[x] };
    let left = set.without(v as u16);
    sets[x] = left.bits;
    if left.is_empty() {
        Step::Failed
    } else {
        Step::Next
    }
}

// An equality: whether every assignment keeps it, or some does, or none.
pub fn equality(sets: &[u16; 16], x: usize, v: u8) -> Step
    requires { x < 16 }
    ensures { Stepped sets.now (equality x v) sets.now result }
{
    let set = ValueSet { bits: sets[x] };
    let others = set.without(v as u16);
    if others.is_empty() {
        Step::Next
    } else if others.bits == set.bits {
        Step::Obeyed
    } else {
        Step::Split
    }
}

// The pair is forced: the variable keeps only the value.
pub fn force(sets: &mut [u16; 16], x: usize, v: u8)
    requires { x < 16 }
    ensures { sets.new ≡ set sets.old x (only_mask (at sets.old x) v) }
{
    let set = ValueSet { bits: sets[x] };
    let kept = set.only(v as u16);
    sets[x] = kept.bits;
}

// Whether a set is another than it was.
pub fn changed(old: &[u16; 16], new: &[u16; 16]) -> bool
    ensures { Changed result old.now new.now }
{
    old != new
}
