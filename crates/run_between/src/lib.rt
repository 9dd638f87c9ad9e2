// The walk along the nodes of a tree that come after one path and not after another.
#![tactic(auto)]

ghost use Rattle.std.specs.Prelude.{◌≡◌, List, ℕ, ◌+◌, ◌-◌, ◌*◌, ◌≤◌, ◌<◌, length, drop};
ghost use Rattle.model.specs.Lists.{at};
ghost use Rattle.model.specs.Problem.{Problem};
ghost use Rattle.model.specs.Run as Run;
ghost use Rattle.run_state.specs.Inner.Pair.{prefix_of, Walked};
ghost use Rattle.run_state.specs.{Meaning.tally_in, Inner.Cut.stop_of, Inner.Cut.node_in};
ghost use Rattle.run_ranges.specs.Inner.Within.{within, into_nodes, onto_nodes, up_to_nodes};
ghost use Rattle.run_between.specs.Inner.Steps.{range_mask, AtStep, Stepped, AtPut, PutNode, AtBelow, AtInto, AtUpTo, AtOnto, PutPath, Valued, Parted};
ghost use Rattle.arrays.specs.Inner.Places.{LAST, DEEPER, WORK};
ghost use Rattle.arrays.specs.Inner.Places.{DIAGONAL};
ghost use Rattle.run_state.specs.Inner.Walk.{no_nodes};

use arrays::{DIAGONAL, LAST, Numbers, Stack, Supports, Tables, VARIABLES, Work};
use model::{ValueSet, long};
use run_state::{Cut, Node, Tally};
use run_tree::CountedPart;

// The members from `low` up and below `high`.
fn middle(set: ValueSet, low: u16, high: u16) -> ValueSet
    ensures { result.bits ≡ range_mask set.bits low high }
{
    ValueSet {
        bits: set.bits & !ValueSet::full(low).bits & ValueSet::full(high).bits,
    }
}

// The values of the set of variable k at depth k from `low` up and below `high`.
fn values_within(stack: &Stack, k: usize, low: u16, high: u16) -> u16
    requires { k < 12 }
    ensures { result ≡ range_mask (at stack.now (DIAGONAL * k)) low high }
{
    let set = ValueSet {
        bits: stack[DIAGONAL * k],
    };
    middle(set, low, high).bits
}

// Goes one value down the path that stands in `work`: whether the set of variable k leaves its value, and the prefix with it is live.
fn step(
    stack: &mut Stack,
    work: &mut Work,
    supports: &Supports,
    tables: &Tables,
    numbers: &Numbers,
    k: usize,
) -> bool
    requires { (p : Problem) × (list : List ℕ) × (tally : Run.Tally) × AtStep p stack.old work.old supports.now tables.now
        numbers.now list tally k }
    ensures { (p : Problem) (list : List ℕ) (tally : Run.Tally) → AtStep p stack.old work.old supports.now
        tables.now numbers.now list tally k → Stepped p stack.old work.old supports.now
        tables.now numbers.now list tally k stack.new work.new result }
{
    let set = ValueSet {
        bits: stack[DIAGONAL * k],
    };
    if set.contains(work[k] as u16) {
        return !prune::descend(stack, work, supports, tables, numbers, k);
    }
    false
}

// Makes the node of value v at depth k, which is not the last, but for its count: whether its prefix is live.
fn put_node(
    stack: &mut Stack,
    work: &mut Work,
    supports: &Supports,
    tables: &Tables,
    numbers: &Numbers,
    k: usize,
    v: u8,
) -> bool
    requires { (p : Problem) × (list : List ℕ) × (tally : Run.Tally) × AtPut p stack.old work.old supports.now tables.now
        numbers.now list tally k v }
    ensures { (p : Problem) (list : List ℕ) (tally : Run.Tally) → AtPut p stack.old work.old supports.now
        tables.now numbers.now list tally k v → PutNode p stack.old work.old supports.now
        tables.now numbers.now list tally k v stack.new work.new result }
{
    work[k] = v as u64;
    work[LAST] = (k + 1) as u64;
    !prune::descend(stack, work, supports, tables, numbers, k)
}

// Walks along the nodes below the value at depth k of the path in `work`, where the sets leave it, from the path's rest up to another.
#[cycle(below_into_onto_up_to)]
fn into(
    stack: &mut Stack,
    work: &mut Work,
    supports: &Supports,
    tables: &Tables,
    numbers: &Numbers,
    list: &mut [u8],
    from: &[u8],
    upto: &[u8],
    k: usize,
    tally: Tally,
) -> CountedPart
    requires { (p : Problem) × AtInto p from.now stack.old work.old supports.now tables.now numbers.now list.old (tally_in tally) k }
    ensures { (p : Problem) → AtInto p from.now stack.old work.old supports.now tables.now
        numbers.now list.old (tally_in tally) k → Walked p
        (into_nodes p (p.variables - (k + 1)) (prefix_of work.old k) (at work.old k) from.now upto.now)
        stack.old work.old numbers.now list.old (tally_in tally) k stack.new work.new
        list.new (tally_in result.tally) (stop_of result.stop) }
{
    if k + 1 == numbers[VARIABLES] as usize {
        return CountedPart {
            stop: Ok(()),
            tally,
        };
    }
    if !step(stack, work, supports, tables, numbers, k) {
        return CountedPart {
            stop: Ok(()),
            tally,
        };
    }
    below(
        stack,
        work,
        supports,
        tables,
        numbers,
        list,
        from,
        upto,
        k + 1,
        tally,
    )
}

// Walks along the node of value v at depth k, which is not the last, where the sets leave it, and the nodes below it that are not after the path.
#[cycle(below_into_onto_up_to)]
fn onto(
    stack: &mut Stack,
    work: &mut Work,
    supports: &Supports,
    tables: &Tables,
    numbers: &Numbers,
    list: &mut [u8],
    v: u8,
    upto: &[u8],
    k: usize,
    tally: Tally,
) -> CountedPart
    requires { (p : Problem) × AtOnto p stack.old work.old supports.now tables.now numbers.now list.old (tally_in tally) k }
    ensures { (p : Problem) → AtOnto p stack.old work.old supports.now tables.now numbers.now
        list.old (tally_in tally) k → Walked p (onto_nodes p (p.variables - (k + 1)) (prefix_of work.old k) v upto.now)
        stack.old work.old numbers.now list.old (tally_in tally) k stack.new work.new
        list.new (tally_in result.tally) (stop_of result.stop) }
{
    let set = ValueSet {
        bits: stack[DIAGONAL * k],
    };
    if !set.contains(u16::from(v)) {
        return CountedPart {
            stop: Ok(()),
            tally,
        };
    }
    if tally.nodes == run_state::limit(numbers) {
        return CountedPart {
            stop: Err(Cut::Spent),
            tally,
        };
    }
    let x = run_state::variable_at(numbers, k);
    let mut next = tally;
    next.add_node(x);
    if !put_node(stack, work, supports, tables, numbers, k, v) {
        return CountedPart {
            stop: Ok(()),
            tally: next,
        };
    }
    let none = [0u8; 0];
    below(
        stack,
        work,
        supports,
        tables,
        numbers,
        list,
        &none,
        upto,
        k + 1,
        next,
    )
}

// Walks along the nodes of the values from `low` up that are not after the path, whose first value is not below `low`.
#[cycle(below_into_onto_up_to)]
fn up_to(
    stack: &mut Stack,
    work: &mut Work,
    supports: &Supports,
    tables: &Tables,
    numbers: &Numbers,
    list: &mut [u8],
    low: u16,
    upto: &[u8],
    k: usize,
    tally: Tally,
) -> CountedPart
    requires { (p : Problem) × AtUpTo p low upto.now stack.old work.old supports.now tables.now numbers.now list.old (tally_in tally) k }
    ensures { (p : Problem) → AtUpTo p low upto.now stack.old work.old supports.now
        tables.now numbers.now list.old (tally_in tally) k → Walked p
        (up_to_nodes p (p.variables - (k + 1)) (prefix_of work.old k) low (at upto.now 0) (drop 1 upto.now))
        stack.old work.old numbers.now list.old (tally_in tally) k stack.new work.new
        list.new (tally_in result.tally) (stop_of result.stop) }
{
    let v = upto[0];
    let high = u16::from(v);
    if k + 1 == numbers[VARIABLES] as usize {
        let all = values_within(stack, k, low, high + 1);
        return run_tree::walk_counted(stack, work, supports, tables, numbers, list, tally, k, all);
    }
    let m = values_within(stack, k, low, high);
    let part = run_tree::walk_counted(stack, work, supports, tables, numbers, list, tally, k, m);
    if part.stop.is_err() {
        return part;
    }
    let counted = part.tally;
    onto(
        stack,
        work,
        supports,
        tables,
        numbers,
        list,
        v,
        &upto[1..],
        k,
        counted,
    )
}

// Walks along the nodes below the prefix of k values that come after it with one path behind, which stands in `work`, and not after it with another.
#[cycle(below_into_onto_up_to)]
fn below(
    stack: &mut Stack,
    work: &mut Work,
    supports: &Supports,
    tables: &Tables,
    numbers: &Numbers,
    list: &mut [u8],
    from: &[u8],
    upto: &[u8],
    k: usize,
    tally: Tally,
) -> CountedPart
    requires { (p : Problem) × AtBelow p from.now stack.old work.old supports.now tables.now numbers.now list.old (tally_in tally) k }
    ensures { (p : Problem) → AtBelow p from.now stack.old work.old supports.now tables.now
        numbers.now list.old (tally_in tally) k → Walked p
        (within p (p.variables - k) (prefix_of work.old k) from.now upto.now) stack.old work.old
        numbers.now list.old (tally_in tally) k stack.new work.new list.new (tally_in result.tally)
        (stop_of result.stop) }
{
    if upto.is_empty() {
        return CountedPart {
            stop: Ok(()),
            tally,
        };
    }
    if from.is_empty() {
        return up_to(
            stack, work, supports, tables, numbers, list, 0, upto, k, tally,
        );
    }
    let a = from[0];
    let low = u16::from(a);
    let b = upto[0];
    if b < a {
        return CountedPart {
            stop: Ok(()),
            tally,
        };
    }
    if a == b {
        return into(
            stack,
            work,
            supports,
            tables,
            numbers,
            list,
            &from[1..],
            &upto[1..],
            k,
            tally,
        );
    }
    let open = [255u8; 1];
    let part = into(
        stack,
        work,
        supports,
        tables,
        numbers,
        list,
        &from[1..],
        &open,
        k,
        tally,
    );
    if part.stop.is_err() {
        return part;
    }
    let counted = part.tally;
    up_to(
        stack,
        work,
        supports,
        tables,
        numbers,
        list,
        low + 1,
        upto,
        k,
        counted,
    )
}

// Puts a path in `work`, of which twelve values are kept, as the last node made.
pub fn put_path(work: &mut Work, path: &[u8])
    requires { length work.old ≡ WORK }
    ensures { PutPath path.now work.old work.new }
{
    let end = path.len().min(12);
    for i in 0..end {
        work[i] = long(path[i]);
    }
    work[LAST] = end as u64;
}

// The values of the last node in `work`, as bytes.
pub fn last_values(work: &Work) -> [u8; 12]
    requires { (at work.now LAST ≤ 12) × ((i : ℕ) → i < at work.now LAST → at work.now i < 256) }
    ensures { Valued work.now result }
{
    let mut last = [0u8; 12];
    let length = work[LAST] as usize;
    for i in 0..length {
        last[i] = work[i] as u8;
    }
    last
}

// The walk along the part, where nodes are below the empty prefix.
pub fn walk_part(
    stack: &mut Stack,
    work: &mut Work,
    supports: &Supports,
    tables: &Tables,
    numbers: &Numbers,
    list: &mut [u8],
    from: &[u8],
    upto: &[u8],
    node: Node,
) -> CountedPart
    requires { node_in node ≡ DEEPER → (p : Problem) × AtBelow p from.now stack.old work.old supports.now tables.now numbers.now
        list.old no_nodes 0 }
    ensures { Parted from.now upto.now stack.old work.old supports.now tables.now
        numbers.now list.old (node_in node) stack.new work.new list.new (tally_in result.tally) (stop_of result.stop) }
{
    let tally = Tally::new();
    if let Node::Leaf = node {
        return CountedPart {
            stop: Ok(()),
            tally,
        };
    }
    below(
        stack, work, supports, tables, numbers, list, from, upto, 0, tally,
    )
}
