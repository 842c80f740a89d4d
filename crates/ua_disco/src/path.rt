//! Where a value stands in a document.

ghost use Rattle.std.specs.Prelude.{◌≡◌, ◌++◌, ◌∷◌, [], IfOk, string_bytes};
ghost use Rattle.std.specs.Fmt.{decimal};
ghost use Rattle.ua_disco.specs.Paths.{path_text};

use std::alloc::{AllocError, Global};

/// The path to a value, or what stands before the keys of a table in their paths. It lends its
/// pieces and takes no memory: a text is made of it only where a fault names it.
#[derive(Clone, Copy)]
pub(crate) enum Path<'a> {
    /// Nothing stands before the keys of the document.
    Top,
    /// A text behind what stands before it: a key, or the dot behind the path of a table.
    Then(&'a Path<'a>, &'a str),
    /// The item of an array, by its number.
    Item(&'a Path<'a>, usize),
}

/// What stands before the keys of the document.
#[tactic(auto, unfolding(crate::specs::Paths::path_text))]
pub(crate) fn top() -> Path<'static>
    ensures { path_text result ≡ [] }
{
    Path::Top
}

/// The path of a key behind what stands before the keys of its table.
#[tactic(auto, unfolding(crate::specs::Paths::path_text))]
pub(crate) fn path_of<'a>(prefix: &'a Path<'a>, key: &'a str) -> Path<'a>
    ensures { path_text result ≡ path_text prefix.now ++ key.now }
{
    Path::Then(prefix, key)
}

/// What stands before the keys of a table.
#[tactic(auto, unfolding(crate::specs::Paths::path_text))]
pub(crate) fn prefix_of<'a>(path: &'a Path<'a>) -> Path<'a>
    ensures { path_text result ≡ path_text path.now ++ 46 ∷ [] }
{
    path_of(path, ".")
}

/// The path of an item.
#[tactic(auto, unfolding(crate::specs::Paths::path_text))]
pub(crate) fn item_path<'a>(path: &'a Path<'a>, index: usize) -> Path<'a>
    ensures { path_text result ≡ path_text path.now ++ 46 ∷ decimal index }
{
    Path::Item(path, index)
}

/// The text of a path.
#[tactic(auto, unfolding(crate::specs::Paths::path_text))]
pub(crate) fn text_of(alloc: Global, path: &Path<'_>) -> Result<String, AllocError>
    ensures { IfOk result (λ s. string_bytes s ≡ path_text path.now) }
{
    match path {
        Path::Top => Ok(String::new(alloc)),
        Path::Then(before, text) => {
            let mut path = text_of(alloc, before)?;
            path.push_str(text)?;
            Ok(path)
        }
        Path::Item(array, index) => {
            let array = text_of(alloc, array)?;
            format!(in alloc; "{array}.{index}")
        }
    }
}
