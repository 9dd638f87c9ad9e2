// Counts the families of solutions by breadth-first search over their numbers (paper 02, #104).
#![tactic(auto)]

ghost use Rattle.std.specs.Prelude.{◌≡◌, List, ℕ, ◌+◌, ◌*◌, ◌<◌, ◌≤◌, length};
ghost use Rattle.model.specs.Lists.{at};
ghost use Rattle.model.specs.Problem.{Problem};
ghost use Rattle.families.specs.Families.{solutions_of, families_of};
ghost use Rattle.families.specs.Inner.Walk.{solution_at, image_at, Walk};
ghost use Rattle.families.specs.Inner.Numbered.{key_of, Unlinked, Chained, Weighed, Listed, Imaging, Finding, Counted, NumberingOf, SpreadingOf, FloodingOf};

// The key of the row from a place on: its values as the digits of one number, which is smaller for a row that reads earlier.
fn key(rows: &[u8], from: usize, variables: usize) -> u64
    requires { (from + variables ≤ length rows.now) × (variables ≤ 12) × ((x : ℕ) → x < variables → at rows.now (from + x) < 16) }
    ensures { result ≡ key_of variables (λ x. at rows.now (from + x)) }
{
    let mut r = 0u64;
    for x in 0..variables {
        r = 16 * r + rows[from + x] as u64;
    }
    r
}

// The keys of all rows. Rows whose keys leave the same rest by 1021 make a chain: beside a key stands the link to the chain's row before it, and `heads` has
// the link to its last. A link is one more than the row's number, or 0.
fn fill(
    rows: &[u8],
    variables: usize,
    solutions: usize,
    keys: &mut [u64; 4096],
    heads: &mut [u16; 1021],
)
    requires { (p : Problem) × Listed p rows.now variables × (solutions ≡ length (solutions_of p)) × (length keys.old ≡ 4096) × Unlinked heads.old }
    ensures { (p : Problem) → Listed p rows.now variables → solutions ≡ length (solutions_of p) → Unlinked heads.old
        → Chained p keys.new heads.new solutions }
{
    for i in 0..solutions {
        let own = key(rows, i * variables, variables);
        let chain = (own % 1021) as usize;
        keys[i] = 65536 * own + heads[chain] as u64;
        heads[chain] = (i + 1) as u16;
    }
}

// What each pair adds to the key of a row.
fn weigh(variables: usize, weights: &mut [u64; 192])
    requires { (variables ≤ 12) × (length weights.old ≡ 192) }
    ensures { Weighed variables weights.new }
{
    let end = 16 * variables;
    for c in 0..end {
        weights[c] = ((c % 16) as u64) << (4 * (variables - 1 - c / 16));
    }
}

// All solutions, ascending, the images of the pairs under each symmetry, and what the number of an image is found by: the keys in their chains, and what each
// pair adds to a key.
#[derive(Clone, Copy)]
struct Solutions<'a> {
    rows: &'a [u8],
    images: &'a [u8],
    keys: &'a [u64; 4096],
    heads: &'a [u16; 1021],
    weights: &'a [u64; 192],
    variables: usize,
    symmetries: usize,
}

impl<'a> Solutions<'a> {
    // The key of the row to which a symmetry takes a solution: each pair's image is a digit of it.
    fn carry(&self, i: usize, k: usize) -> u64
        requires { (p : Problem) × Imaging p self.now.rows.now self.now.images.now self.now.variables i k × Weighed self.now.variables self.now.weights.now }
        ensures { (p : Problem) → Imaging p self.now.rows.now self.now.images.now self.now.variables i k → Weighed self.now.variables self.now.weights.now
            → result ≡ key_of self.now.variables (at (solution_at p (image_at p k i))) }
    {
        let base = 192 * k;
        let from = i * self.variables;
        let mut r = 0u64;
        for x in 0..self.variables {
            let code = self.images[base + 16 * x + self.rows[from + x] as usize];
            r += self.weights[code as usize];
        }
        r
    }

    // The number of a solution, by its key: along the chain, which it is in.
    fn find(&self, key: u64) -> usize
        requires { (p : Problem) × (s : List ℕ) × Finding p s self.now.keys.now self.now.heads.now key }
        ensures { (p : Problem) (s : List ℕ) → Finding p s self.now.keys.now self.now.heads.now key → (result < length (solutions_of p)) ×
            (solution_at p result ≡ s) }
    {
        let mut link = self.heads[(key % 1021) as usize] as usize;
        while self.keys[link - 1] / 65536 != key {
            link = (self.keys[link - 1] % 65536) as usize;
        }
        link - 1
    }

    // The number of the solution to which a symmetry takes a solution.
    fn image(&self, i: usize, k: usize) -> usize
        requires { (p : Problem) × NumberingOf p self.now i k }
        ensures { (p : Problem) → NumberingOf p self.now i k → result ≡ image_at p k i }
    {
        let sought = self.carry(i, k);
        self.find(sought)
    }

    // Looks at the images of the solution at the head of the queue, and puts those that were not met yet into it; the new tail.
    fn spread(
        &self,
        seen: &mut [bool; 4096],
        queue: &mut [u16; 4096],
        head: usize,
        tail: usize,
    ) -> usize
        requires { (p : Problem) × (starts : ℕ) × (count : ℕ) × SpreadingOf p self.now seen.old queue.old starts count head tail }
        ensures { (p : Problem) (starts count : ℕ) → SpreadingOf p self.now seen.old queue.old starts count head tail →
            (Walk p seen.new queue.new starts count head self.now.symmetries result) × (head < result) }
    {
        let i = queue[head] as usize;
        let mut end = tail;
        for k in 0..self.symmetries {
            let j = self.image(i, k);
            if !seen[j] {
                seen[j] = true;
                queue[end] = j as u16;
                end += 1;
            }
        }
        end
    }

    // Empties the queue; its tail, which is then its head.
    fn flood(
        &self,
        seen: &mut [bool; 4096],
        queue: &mut [u16; 4096],
        head: usize,
        tail: usize,
    ) -> usize
        requires { (p : Problem) × (starts : ℕ) × (count : ℕ) × FloodingOf p self.now seen.old queue.old starts count head tail }
        ensures { (p : Problem) (starts count : ℕ) → FloodingOf p self.now seen.old queue.old starts count head tail → Walk p seen.new
            queue.new starts count result 0 result }
    {
        let mut first = head;
        let mut end = tail;
        while first < end {
            end = self.spread(seen, queue, first, end);
            first += 1;
        }
        first
    }
}

// The number of families, given all solutions, ascending, and the images of the pairs under each symmetry. Each solution is taken up once.
pub fn families(
    rows: &[u8],
    images: &[u8],
    variables: usize,
    symmetries: usize,
    solutions: usize,
) -> usize
    requires { (p : Problem) × Counted p rows.now images.now variables symmetries solutions }
    ensures { (p : Problem) → Counted p rows.now images.now variables symmetries solutions → result ≡ families_of p }
{
    let mut keys = [0u64; 4096];
    let mut heads = [0u16; 1021];
    fill(rows, variables, solutions, &mut keys, &mut heads);
    let mut weights = [0u64; 192];
    weigh(variables, &mut weights);
    let found = Solutions {
        rows,
        images,
        keys: &keys,
        heads: &heads,
        weights: &weights,
        variables,
        symmetries,
    };
    let mut seen = [false; 4096];
    let mut queue = [0u16; 4096];
    let mut count = 0;
    let mut tail = 0;
    for i in 0..solutions {
        if !seen[i] {
            seen[i] = true;
            queue[tail] = i as u16;
            count += 1;
            tail = found.flood(&mut seen, &mut queue, tail, tail + 1);
        }
    }
    count
}
