// The check of a store's words. All of it is internal: `store` checks what it is lent.
#![tactic(auto)]

pub mod inner;
