// Parts of a run joined by their heads, which are lent one behind the other, in any order and with repeats: whether they go from the first to the last path,
// with the sums of their figures, or the first range that is missing.
#![tactic(auto)]

mod heads;
mod marks;
pub mod paths;
pub mod steps;
mod walks;
mod ways;

ghost use Rattle.std.specs.Prelude.{◌≡◌, ◌≤◌};
ghost use Rattle.run_join.specs.Join.{heads_in, head_number};
ghost use Rattle.run_join.specs.Inner.Inner.{Heads, Said};
ghost use Rattle.run_join.specs.Calls.{CallJoin};

use crate::heads::question;
use crate::steps::{nearest, stand_path};
use crate::walks::walk;
use crate::ways::find_ways;
use model::refusals::Question;

// The range that is missing: from the empty path, or where a head reaches, up to where a head begins, or the last path.
#[derive(Clone, Copy, Debug, PartialEq, Eq)]
pub struct Missing {
    pub from: Option<usize>,
    pub upto: Option<usize>,
}

// The missing range, none where the heads go from the first to the last path, and the sums of the heads taken.
#[derive(Clone, Copy, Debug, PartialEq, Eq)]
pub struct Joining {
    pub missing: Option<Missing>,
    pub plans: u64,
    pub nodes: u64,
    pub counts: [u64; 12],
}

// What is missing, where the ranges do not join.
fn missing_range(l: &[u8], n: usize, joins: bool, stand: Option<usize>) -> Option<Missing>
    requires { Heads l.now n × (n ≡ heads_in l.now) × (head_number stand ≤ n) }
    ensures { Said l.now joins (head_number stand) result }
{
    if joins {
        return None;
    }
    Some(Missing {
        from: stand,
        upto: nearest(stand_path(l, stand), l, n),
    })
}

// Joins heads.
pub fn join(heads: &[u8]) -> Result<Joining, Question>
    ensures { CallJoin heads.now result }
{
    question(heads)?;
    let n = heads.len() / 115;
    let mut marks = [0u64; 1024];
    let joins = find_ways(heads, n, &mut marks);
    let w = walk(heads, n, &marks);
    let missing = missing_range(heads, n, joins, w.stand);
    let counts = w.counts;
    Ok(Joining {
        missing,
        plans: w.plans,
        nodes: w.nodes,
        counts,
    })
}
