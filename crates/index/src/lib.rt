// The index over a store's records, in the scratch: hashes, chains by bucket, and lookup of the
// entries that stand on the stack. All of it is internal: callers keep `Records` and `Indexed`.
#![tactic(auto)]

mod add;
mod find;
mod hash;
mod places;
mod reads;
mod stack;

pub use add::{add_to_index, clear_heads};
pub use find::{find_interned, same_record};
pub use hash::entries_hash;
pub use reads::stack_entry;
pub use stack::{load_entries, put_entry};
