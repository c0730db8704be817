// The entries over single actions.
ghost use Rattle.crafty.specs.Actions.{HasAttributes, HasPrice, HasWait, HasText, FromName};

use super::room::write;
use action::{Attributes, Combo, TEXT_MOST, Text};
use refusal::Refusal;

pub fn attributes(n: u8) -> Result<Attributes, Refusal>
    ensures { HasAttributes n result }
{
    action::check_action(n)?;
    Ok(action::attributes_of(n))
}

// What the action costs on a combo: none where it has no cost.
pub fn price(n: u8, combo: Option<Combo>) -> Result<Option<u32>, Refusal>
    ensures { HasPrice n combo result }
{
    action::check_action(n)?;
    Ok(action::charged(n, combo, action::attributes_of(n).cp_cost))
}

// In seconds.
pub fn wait(n: u8) -> Result<u8, Refusal>
    ensures { HasWait n result }
{
    action::check_action(n)?;
    Ok(action::wait(action::attributes_of(n)))
}

// A text of an action: rendered into a room of its own, which is always enough, and then written.
#[tactic(auto, using(action::specs::laws::Known::action_shown, action::specs::laws::Names::text_short, text::specs::laws::Over::take_put), unfolding(refusal::specs::Judge::judged))]
fn text_of(which: Text, n: u8, out: &mut [u8]) -> Result<usize, Refusal>
    ensures { HasText which n out.old result out.new }
{
    action::check_action(n)?;
    let mut room = [0u8; TEXT_MOST];
    let k = action::put_text(which, n, &mut room, 0);
    write(&room[..k], out)
}

pub fn name(n: u8, out: &mut [u8]) -> Result<usize, Refusal>
    ensures { HasText Text.Name n out.old result out.new }
{
    text_of(Text::Name, n, out)
}

pub fn label(n: u8, out: &mut [u8]) -> Result<usize, Refusal>
    ensures { HasText Text.Label n out.old result out.new }
{
    text_of(Text::Label, n, out)
}

pub fn macro_text(n: u8, out: &mut [u8]) -> Result<usize, Refusal>
    ensures { HasText Text.Macro n out.old result out.new }
{
    text_of(Text::Macro, n, out)
}

// The whole buffer is the name.
pub fn from_name(word: &[u8]) -> Result<u8, Refusal>
    ensures { FromName word.now result }
{
    action::from_name(word).ok_or(Refusal::UnknownWord(0))
}
