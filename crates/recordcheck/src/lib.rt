// The check of a store's records, one after the other. All of it is internal: `store` checks what it is lent.
#![tactic(auto)]

pub mod inner;
