// Where each variable stands in the order.
ghost use Rattle.std.specs.Prelude.{◌≡◌, ◌≤◌, ◌<◌};
ghost use Rattle.model.specs.Lists.{at};
ghost use Rattle.model.specs.Inner.Filling.{Filled};
ghost use Rattle.arrays_order.specs.Inner.Steps.{Small, stand};

// An order of n variables: the first n are the variables by their new place.
#[derive(Clone, Copy)]
pub struct Order {
    pub variables: [u8; 16],
    pub n: usize,
    ghost few: { n ≤ 12 },
    ghost small: { Small n variables },
}

// Read by a function, whose result is known to be a byte.
pub fn entry(order: &[u8; 16], i: usize) -> u8
    requires { i < 16 }
    ensures { result ≡ at order.now i }
{
    order[i]
}

// The first index of x among the first n, n where it is not among them.
fn position(order: &[u8; 16], n: usize, x: usize) -> usize
    requires { n ≤ 12 }
    ensures { (result ≡ stand n order.now x) × (result ≤ n) }
{
    order[..n]
        .iter()
        .position(|y| usize::from(*y) == x)
        .unwrap_or(n)
}

pub fn positions(order: &[u8; 16], n: usize, stands: &mut [u8; 16])
    requires { n ≤ 12 }
    ensures { Filled (λ x. x) (λ x r. r ≡ stand n order.now x) n stands.old stands.new }
{
    for x in 0..n {
        stands[x] = position(order, n, x) as u8;
    }
}
