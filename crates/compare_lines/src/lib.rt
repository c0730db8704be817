// What the programs of the comparison share: the blocks and lines that they read, the loop over them, and the words of their answers.

#![tactic(auto)]

pub mod block;
pub mod case;
pub mod kind;
pub mod page;
pub mod run;
