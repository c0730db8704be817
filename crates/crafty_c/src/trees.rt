// The tree over records that a host lends.
ghost use Rattle.std.specs.Prelude.{◌≡◌};
ghost use Rattle.crafty_c.specs.Trees.{solved_at, solved_answer, TellsPlanted, TellsInserted, TellsPropagated, TellsListed, TellsSolved};

use super::answer::{CraftyAnswer, answer, done, refused};
use refusal::Refusal;
use tree::Node;

// What `crafty_tree_solution` answers: beside the number and value, the last node.
#[repr(C)]
#[derive(Clone, Copy)]
pub struct CraftySolution {
    pub number: u32,
    pub value: usize,
    pub node: usize,
}

fn solved_at(answer: CraftyAnswer, node: usize) -> CraftySolution
    ensures { result ≡ solved_at answer node }
{
    CraftySolution {
        number: answer.number,
        value: answer.value,
        node,
    }
}

fn solved_answer(solved: Result<(usize, usize), Refusal>) -> CraftySolution
    ensures { result ≡ solved_answer solved }
{
    match solved {
        Ok((length, last)) => solved_at(done(length), last),
        Err(x) => solved_at(refused(x), 0),
    }
}

#[unsafe(no_mangle)]
pub extern "C" fn crafty_tree_new(nodes: &mut [Node], unused: u32) -> CraftyAnswer
    ensures { TellsPlanted nodes.old unused result nodes.new }
{
    answer(tree::plant(nodes, unused))
}

#[unsafe(no_mangle)]
pub extern "C" fn crafty_tree_insert(
    nodes: &mut [Node],
    count: usize,
    parent: usize,
    action: u8,
    unused: u32,
) -> CraftyAnswer
    ensures { TellsInserted nodes.old count parent action unused result nodes.new }
{
    answer(tree::insert(nodes, count, parent, action, unused).map(|(number, _)| number))
}

#[unsafe(no_mangle)]
pub extern "C" fn crafty_tree_backpropagate(
    nodes: &mut [Node],
    count: usize,
    start: usize,
    target: usize,
    score: f32,
) -> CraftyAnswer
    ensures { TellsPropagated nodes.old count start target score result nodes.new }
{
    answer(tree::backpropagate(nodes, count, start, target, score).map(|()| 0))
}

#[unsafe(no_mangle)]
pub extern "C" fn crafty_tree_children(
    nodes: &[Node],
    out: &mut [usize],
    count: usize,
    node: usize,
) -> CraftyAnswer
    ensures { TellsListed nodes.now count node out.old result out.new }
{
    answer(tree::children(nodes, out, count, node))
}

#[unsafe(no_mangle)]
pub extern "C" fn crafty_tree_solution(
    nodes: &[Node],
    out: &mut [u8],
    count: usize,
) -> CraftySolution
    ensures { TellsSolved nodes.now count out.old result out.new }
{
    solved_answer(tree::solution(nodes, out, count))
}
