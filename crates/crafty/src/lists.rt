// The entries over a list of actions as text, and its macro time.
ghost use Rattle.crafty.specs.Lists.{ReadsList, WritesList, Lasts};

use refusal::Refusal;

// Two passes, since a refusal writes nothing, and an unknown word is told before room that is too short.
pub fn read_list(text: &[u8], out: &mut [u8]) -> Result<usize, Refusal>
    ensures { ReadsList text.now out.old result out.new }
{
    let k = rotation::count(text).map_err(Refusal::UnknownWord)?;
    refusal::check_room(out.len(), k)?;
    Ok(rotation::put_words(text, out))
}

#[tactic(auto, using(action::specs::laws::Known::list_shown), unfolding(refusal::specs::Judge::judged))]
pub fn write_list(list: &[u8], out: &mut [u8]) -> Result<usize, Refusal>
    ensures { WritesList list.now out.old result out.new }
{
    refusal::check_size(list.len())?;
    action::check_list(list)?;
    refusal::check_room(out.len(), rotation::measure(list))?;
    Ok(rotation::put_list(list, out))
}

// In seconds.
pub fn macro_time(list: &[u8]) -> Result<u32, Refusal>
    ensures { Lasts list.now result }
{
    refusal::check_size(list.len())?;
    action::check_list(list)?;
    Ok(rotation::seconds(list))
}
