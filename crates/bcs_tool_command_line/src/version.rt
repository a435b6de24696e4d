//! Which program this is.

/// The program's version, and the logic that it is proved in, as `rt version` names it. The gate
/// compares the two. Kits of several names have one logic.
pub const VERSION: &str = "0.1.0, proved with Rattle logic dac8208d650f15bf";
