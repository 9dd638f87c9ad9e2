// The images of the pairs, with the variables renamed on both sides.
ghost use Rattle.std.specs.Prelude.{◌≡◌, ◌+◌, ◌*◌, ◌≤◌, ◌<◌, length};
ghost use Rattle.model.specs.Lists.{at};
ghost use Rattle.model.specs.Inner.Filling.{Filled};
ghost use Rattle.arrays_order.specs.Inner.Steps.{renamed_to, image_from, MovedImages};

use crate::places::{Order, entry};

// Read by a function, whose result is known to be a byte.
fn image(old: &[u8; 192], q: usize) -> u8
    requires { q < 192 }
    ensures { result ≡ at old.now q }
{
    old[q]
}

// An image with its variable named by its position.
fn renamed(stands: &[u8; 16], q: u8) -> u8
    ensures { result ≡ renamed_to stands.now q }
{
    let y = entry(stands, usize::from(q / 16)) % 16;
    16 * y + q % 16
}

// The pairs of a symmetry whose images stand from a place on.
fn symmetry(order: Order, stands: &[u8; 16], from: usize, images: &mut [u8])
    requires { from + 192 ≤ length images.old }
    ensures { Filled (λ j. from + j) (λ j r. r ≡ renamed_to stands.now
        (at images.old (from + image_from order.variables j))) (16 * order.n) images.old images.new }
{
    let mut old = [0u8; 192];
    old.copy_from_slice(&images[from..from + 192]);
    for j in 0..16 * order.n {
        let x = usize::from(entry(&order.variables, j / 16));
        images[from + j] = renamed(stands, image(&old, 16 * x + j % 16));
    }
}

// The pairs of every symmetry.
pub fn rename(order: Order, stands: &[u8; 16], g: usize, images: &mut [u8])
    requires { 192 * g ≤ length images.old }
    ensures { MovedImages order.n order.variables stands.now g images.old images.new }
{
    for e in 0..g {
        symmetry(order, stands, 192 * e, images);
    }
}
