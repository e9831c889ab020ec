//! What is kept of each of the four texts that were diagnosed last: the text, what was found in it, and the digests of its blocks.
//!
//! [`Diagnosed::followed`] goes over to another text, which differs from it in a part. Where nothing was found in the part, and its lines
//! say the same of blocks before and after (they differ in layout, comments, the case of names, quoted texts and prose alone), what is
//! found in the other text is what was found, moved with its lines, without a look at any rule. Else the part's blocks are read, and
//! beside them only those in which something may be found, as the digests of all blocks say.
#![tactic(auto)]

mod alike;
mod before;
mod blocks;
mod diagnosed;
mod difference;
mod line_item;
mod moved;
mod recent;
mod walk;

pub use diagnosed::Diagnosed;
pub use recent::Recent;
