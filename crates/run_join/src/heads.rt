// The questions to the heads.
ghost use Rattle.std.specs.Prelude.{◌≡◌, ◌+◌, ◌*◌, ◌≤◌, leb, length};
ghost use Rattle.model.specs.Lists.{all, below};
ghost use Rattle.model.specs.Refusals.{verdict_from_question};
ghost use Rattle.run_join.specs.Join.{kind_at, head_shaped, alike, join_verdict};

use crate::paths::{four_at, path_shaped};
use model::refusals::Question;

// Whether head k has the shape of a head.
fn head_shaped(l: &[u8], k: usize) -> bool
    requires { 115 * k + 115 ≤ length l.now }
    ensures { result ≡ head_shaped l.now k }
{
    let kind = four_at(l, 115 * k);
    1 <= kind
        && kind <= 3
        && path_shaped(l, 115 * k + 76)
        && path_shaped(l, 115 * k + 89)
        && path_shaped(l, 115 * k + 102)
}

fn all_shaped(l: &[u8], n: usize) -> bool
    requires { 115 * n ≤ length l.now }
    ensures { result ≡ all (head_shaped l.now) (below n) }
{
    (0..n).all(|k| head_shaped(l, k))
}

// Whether head k names the problem that the first names.
fn is_alike(l: &[u8], k: usize) -> bool
    requires { 115 * k + 115 ≤ length l.now }
    ensures { result ≡ alike l.now k }
{
    let place = 115 * k + 60;
    l[place..place + 16] == l[60..76]
}

fn all_alike(l: &[u8], n: usize) -> bool
    requires { 115 * n ≤ length l.now }
    ensures { result ≡ all (alike l.now) (below n) }
{
    (0..n).all(|k| is_alike(l, k))
}

fn none_full(l: &[u8], n: usize) -> bool
    requires { 115 * n ≤ length l.now }
    ensures { result ≡ all (λ k. leb (kind_at l.now k) 2) (below n) }
{
    (0..n).all(|k| four_at(l, 115 * k) <= 2)
}

pub fn question(l: &[u8]) -> Result<(), Question>
    ensures { verdict_from_question result ≡ join_verdict l.now }
{
    let n = l.len() / 115;
    if l.len() % 115 != 0 || n > 65536 {
        return Err(Question::WholeHeads);
    }
    if !all_shaped(l, n) {
        return Err(Question::HeadShape);
    }
    if !all_alike(l, n) {
        return Err(Question::SameSheet);
    }
    if !none_full(l, n) {
        return Err(Question::NoneFull);
    }
    Ok(())
}
