// The way down in a tree of few records: one pass over them finds the best child of each.
ghost use Rattle.std.specs.Prelude.{◌≡◌, ◌<◌, ◌≤◌, ◌&&◌, length, nat_le};
ghost use Rattle.tree.specs.Paths.{Solves};
ghost use Rattle.tree.specs.inner.Few.{few, worth_a_table, entry_at, taken_at, Noting, child_noted, Blank, Bests, Rises, way_of};
ghost use Rattle.tree.specs.inner.Sound.{SoundTree};

use super::best::{Best, is_better};
use super::node::Node;
use super::records::node_at;
use refusal::Refusal;

// As many records as the table of their best children has room for. It has 0 for none: of optional numbers it would be twice as long.
const FEW: usize = 4096;

// Speed alone: with fewer, a search at each step is mostly the faster. compare/reference/src/trees/ways.rs counts by both bounds.
const WORTH_A_TABLE: usize = 12;

pub fn fits_table(count: usize) -> bool
    ensures { result ≡ nat_le worth_a_table count && nat_le count few }
{
    (WORTH_A_TABLE..=FEW).contains(&count)
}

// The best child of record p that the table has, where 0 is for none.
fn best_at(nodes: &[Node], best: &[u32], p: usize) -> Option<Best>
    requires { (p < length best.now) × (entry_at best.now p < length nodes.now) }
    ensures { result ≡ taken_at nodes.now (entry_at best.now p) }
{
    match best[p] as usize {
        0 => None,
        at => Some(Best {
            at,
            max_score: node_at(nodes, at).max_score,
        }),
    }
}

// Record k takes the place of the best child so far of its parent, if it is better.
fn note_child(nodes: &[Node], best: &mut [u32], k: usize)
    requires { Noting nodes.now best.old k }
    ensures { best.new ≡ child_noted nodes.now best.old k }
{
    let n = node_at(nodes, k);
    let found = best_at(nodes, best, n.parent);
    if is_better(found, n) {
        best[n.parent] = k as u32;
    }
}

// Each record but 0, which is no child.
fn best_children(nodes: &[Node], best: &mut [u32], count: usize)
    requires { Blank nodes.now count best.old }
    ensures { Bests nodes.now count best.new }
{
    for k in 1..count {
        note_child(nodes, best, k);
    }
}

// How many records the way down has.
fn way_len(best: &[u32]) -> usize
    requires { Rises (entry_at best.now) (length best.now) × (0 < length best.now) }
    ensures { result ≡ length (way_of best.now) }
{
    let mut len = 0;
    let mut k = best[0] as usize;
    // The steps are the table's own, so no range goes over them.
    while k != 0 {
        len += 1;
        k = best[k] as usize;
    }
    len
}

// The solution of a sound tree, by the table.
pub fn solve_few(nodes: &[Node], out: &mut [u8], count: usize) -> Result<(usize, usize), Refusal>
    requires { SoundTree nodes.now count × (count ≤ few) }
    ensures { Solves nodes.now count out.old result out.new }
{
    let mut best = [0u32; FEW];
    best_children(nodes, &mut best, count);
    let needed = way_len(&best);
    refusal::check_room(out.len(), needed)?;
    let mut last = 0;
    for at in 0..needed {
        last = best[last] as usize;
        out[at] = node_at(nodes, last).action;
    }
    Ok((needed, last))
}
