// The entries that list the children of a record, and the solution that a tree holds.
ghost use Rattle.tree.specs.Paths.{Lists, Solves};

use super::descend::{put_solution, solution_len};
use super::few::{fits_table, solve_few};
use super::listing::{count_children, put_children};
use super::node::Node;
use super::scan::{check_node, check_tree};
use refusal::Refusal;

// The children of record k, in record order, and how many they are.
#[tactic(auto, using(crate::specs::laws::Tree::checked_tree), unfolding(refusal::specs::Judge::judged))]
pub fn children(nodes: &[Node], out: &mut [usize], count: usize, k: usize) -> Result<usize, Refusal>
    ensures { Lists nodes.now count k out.old result out.new }
{
    check_tree(nodes, count)?;
    check_node(count, k)?;
    let needed = count_children(nodes, count, k);
    refusal::check_room(out.len(), needed)?;
    Ok(put_children(nodes, out, count, k))
}

// From record 0 on the best child of each: their actions, how many they are, and the last record.
#[tactic(auto, using(crate::specs::laws::Tree::checked_tree), unfolding(refusal::specs::Judge::judged))]
pub fn solution(nodes: &[Node], out: &mut [u8], count: usize) -> Result<(usize, usize), Refusal>
    ensures { Solves nodes.now count out.old result out.new }
{
    check_tree(nodes, count)?;
    if fits_table(count) {
        return solve_few(nodes, out, count);
    }
    let needed = solution_len(nodes, count);
    refusal::check_room(out.len(), needed)?;
    let last = put_solution(nodes, out, count);
    Ok((needed, last))
}
