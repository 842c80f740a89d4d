//! Lists that grow by one.

ghost use Rattle.std.specs.Prelude.{◌≡◌, ◌++◌, ◌∷◌, [], is_ok, if◌then◌else◌};

use ua_value::NoMemory;

/// Puts an item behind those of a list. Where there is no room for it, the list stays as it was, and the item is dropped.
pub(crate) fn push<T: Drop>(list: &mut Vec<T>, item: T) -> Result<(), NoMemory>
    ensures { list.new.items ≡ (if is_ok result then list.old.items ++ item ∷ [] else list.old.items) }
{
    list.reserve(1)?;
    list.push_reserved(item);
    Ok(())
}
