//! Skips values without building them. `value` is inlined and leaves aren't, so that each level of a format takes
//! little stack: 384 bytes for maps that nest as keys, and less otherwise.
mod blocks;
mod containers;
mod integers;
mod leaves;
mod maps;
mod rows;
mod texts;
mod valid;
mod values;

pub use values::value;
