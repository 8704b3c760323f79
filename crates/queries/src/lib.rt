// The entry queries: what a context of a lent store holds. Each is lent the scratch too, since it
// checks the store itself, and leaves it zero.
#![tactic(auto)]

mod empties;
mod parents;
mod paths;
mod sizes;
mod states;

pub use empties::is_empty;
pub use parents::parent;
pub use paths::has_empty_path;
pub use sizes::len;
pub use states::return_state;
