//! Values by name, in order of adding: an ordered map of the kit, whose values contracts see as a list.

mod map;

pub use map::NameMap;
