//! Room in lists: it is made first, so that what is added later takes no memory.

ghost use Rattle.std.specs.Prelude.{◌≡◌, ◌≤◌, ◌-◌, ◌++◌, length, vec_len, vec_capacity, OnOk};

use std::alloc::AllocError;

/// Makes room for `n` more items.
pub fn make_room<T: Drop>(items: &mut Vec<T>, n: usize) -> Result<(), AllocError>
    ensures items { items.new.items ≡ items.old.items }
    ensures room { OnOk result (n ≤ vec_capacity items.new - vec_len items.new) }
{
    items.reserve(n)
}

/// Adds items after others.
pub fn append<T: Drop>(items: &mut Vec<T>, mut more: Vec<T>)
    requires { length more.items ≤ vec_capacity items.old - vec_len items.old }
    ensures { items.new.items ≡ items.old.items ++ more.items }
{
    match items.append(&mut more) {
        Ok(()) => {}
        Err(_) => unreachable!(),
    }
}
