//! Lists of Exec: headers that hold sequences of nodes, and the laws of a sequence kept by a key. `space` is the
//! interface; `plain` is a list space in vectors, and `link` one of cells that `block` links by raw pointers; `key` and
//! `digest` are what they keep of a node besides its place; `laws` is what is proved of the definitions alone, `pool`
//! gives out numbers of headers and nodes, `walk` goes along a sequence, and `copying` copies sequences to a space with
//! one more node.
#![tactic(auto)]

pub mod block;
pub mod copying;
pub mod digest;
pub mod key;
pub mod laws;
pub mod link;
pub mod plain;
pub mod pool;
pub mod search;
pub mod space;
pub mod walk;
