// Back-propagation of a score from a record up to one above it.
ghost use Rattle.std.specs.Prelude.{◌≡◌};
ghost use Rattle.refusal.specs.Judge.{checks_of};
ghost use Rattle.tree.specs.Refusals.{back_tests};
ghost use Rattle.tree.specs.Back.{Propagates};

use super::climb::{survey_path, touch_path};
use super::node::{Node, check_score};
use super::scan::{check_node, check_tree};
use refusal::Refusal;

// Refusals 7 to 11 in their order. The way up is walked only in a sound tree.
fn check_back(
    nodes: &[Node],
    count: usize,
    start: usize,
    target: usize,
    score: f32,
) -> Result<(), Refusal>
    ensures { result ≡ checks_of (back_tests nodes.now count start target score) }
{
    check_tree(nodes, count)?;
    check_node(count, start)?;
    check_node(count, target)?;
    let survey = survey_path(nodes, start, target);
    if !survey.above {
        return Err(Refusal::NotAbove);
    }
    check_score(score)?;
    if survey.full {
        return Err(Refusal::VisitsFull);
    }
    Ok(())
}

// One more visit of each record from start up to target, with this score.
pub fn backpropagate(
    nodes: &mut [Node],
    count: usize,
    start: usize,
    target: usize,
    score: f32,
) -> Result<(), Refusal>
    ensures { Propagates nodes.old count start target score result nodes.new }
{
    check_back(nodes, count, start, target, score)?;
    touch_path(nodes, start, target, score);
    Ok(())
}
