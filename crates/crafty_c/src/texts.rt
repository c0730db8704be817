// The replay program's input and lists, as text.
ghost use Rattle.crafty_c.specs.Texts.{TellsReplay, TellsPrinted, TellsActions, TellsList, TellsSeconds};

use super::answer::{CraftyAnswer, answer};

#[unsafe(no_mangle)]
pub extern "C" fn crafty_replay_text(input: &[u8], out: &mut [u8]) -> CraftyAnswer
    ensures { TellsReplay input.now out.old result out.new }
{
    answer(crafty::replay_text(input, out))
}

#[unsafe(no_mangle)]
pub extern "C" fn crafty_print(input: &[u8], out: &mut [u8]) -> CraftyAnswer
    ensures { TellsPrinted input.now out.old result out.new }
{
    answer(crafty::replay_output(input, out))
}

#[unsafe(no_mangle)]
pub extern "C" fn crafty_read_list(text: &[u8], out: &mut [u8]) -> CraftyAnswer
    ensures { TellsActions text.now out.old result out.new }
{
    answer(crafty::read_list(text, out))
}

#[unsafe(no_mangle)]
pub extern "C" fn crafty_write_list(list: &[u8], out: &mut [u8]) -> CraftyAnswer
    ensures { TellsList list.now out.old result out.new }
{
    answer(crafty::write_list(list, out))
}

#[unsafe(no_mangle)]
pub extern "C" fn crafty_macro_time(list: &[u8]) -> CraftyAnswer
    ensures { TellsSeconds list.now result }
{
    answer(crafty::macro_time(list).map(|seconds| seconds as usize))
}
